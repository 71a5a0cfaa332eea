//! Message addressing properties: WS-Addressing 1.0 Core, section 3.
use crate::endpoint::Epr;
use rm_base::Uri;
use soap_document::profile::Elements;

/// The message addressing properties of one message. `relates` is the message that this one replies to; From and other
/// relationships are not kept. `params` are the reference parameters that came with the message, without their mark.
#[derive(Debug)]
pub struct Addressing {
    pub to: Uri,
    pub action: Uri,
    pub message_id: Option<Uri>,
    pub relates: Option<Uri>,
    pub reply_to: Option<Epr>,
    pub fault_to: Option<Epr>,
    pub params: Elements,
}

// It's written, and not derived: a value whose drop is derived is taken apart at each place where it may be let go.
impl Drop for Addressing {
    fn drop(self) {
        let Addressing {
            to: _,
            action: _,
            message_id: _,
            relates: _,
            reply_to: _,
            fault_to: _,
            params: _,
        } = self;
    }
}
