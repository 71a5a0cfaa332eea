//! The actions of messages: WS-ReliableMessaging 1.2, sections 3.4 to 3.9 and 4, WS-MakeConnection 1.1, and
//! WS-Addressing 1.0 SOAP Binding, section 6.

/// The action of CreateSequence: WS-ReliableMessaging 1.2, section 3.4.
pub const CREATE_SEQUENCE: &[u8] = b"http://docs.oasis-open.org/ws-rx/wsrm/200702/CreateSequence";

/// The action of CreateSequenceResponse: section 3.4.
pub const CREATE_SEQUENCE_RESPONSE: &[u8] =
    b"http://docs.oasis-open.org/ws-rx/wsrm/200702/CreateSequenceResponse";

/// The action of CloseSequence: section 3.5.
pub const CLOSE_SEQUENCE: &[u8] = b"http://docs.oasis-open.org/ws-rx/wsrm/200702/CloseSequence";

/// The action of CloseSequenceResponse: section 3.5.
pub const CLOSE_SEQUENCE_RESPONSE: &[u8] =
    b"http://docs.oasis-open.org/ws-rx/wsrm/200702/CloseSequenceResponse";

/// The action of TerminateSequence: section 3.6.
pub const TERMINATE_SEQUENCE: &[u8] =
    b"http://docs.oasis-open.org/ws-rx/wsrm/200702/TerminateSequence";

/// The action of TerminateSequenceResponse: section 3.6.
pub const TERMINATE_SEQUENCE_RESPONSE: &[u8] =
    b"http://docs.oasis-open.org/ws-rx/wsrm/200702/TerminateSequenceResponse";

/// The action of AckRequested: section 3.8.
pub const ACK_REQUESTED: &[u8] = b"http://docs.oasis-open.org/ws-rx/wsrm/200702/AckRequested";

/// The action of SequenceAcknowledgement: section 3.9.
pub const SEQUENCE_ACKNOWLEDGEMENT: &[u8] =
    b"http://docs.oasis-open.org/ws-rx/wsrm/200702/SequenceAcknowledgement";

/// The action of the faults of WS-ReliableMessaging 1.2: section 4.
pub const FAULT: &[u8] = b"http://docs.oasis-open.org/ws-rx/wsrm/200702/fault";

/// The action of MakeConnection: WS-MakeConnection 1.1, section 3.2.
pub const MAKE_CONNECTION: &[u8] = b"http://docs.oasis-open.org/ws-rx/wsmc/200702/MakeConnection";

/// The action of the faults of WS-MakeConnection 1.1: section 4.
pub const CONNECTION_FAULT: &[u8] = b"http://docs.oasis-open.org/ws-rx/wsmc/200702/fault";

/// The action of the faults of WS-Addressing 1.0: SOAP Binding, section 6.2.
pub const ADDRESSING_FAULT: &[u8] = b"http://www.w3.org/2005/08/addressing/fault";

/// The action of the faults of SOAP 1.2: SOAP Binding, section 6.1.
pub const SOAP_FAULT: &[u8] = b"http://www.w3.org/2005/08/addressing/soap/fault";
