//! Laws of scripts that are played.
ghost use Rattle.std.specs.Prelude.{◌≡◌, ◌⊎◌, ◌++◌, ◌∷◌, ℕ, List, [], take};
ghost use Rattle.rm_protocol.specs.Delivered.{TakesNew};
ghost use Rattle.rm_protocol.specs.Terms.{Terms};
ghost use Rattle.rm_protocol.specs.World.{Event as Happening, run};
ghost use Rattle.rm_script.specs.Within.{IsWithin};
ghost use Rattle.rm_script.specs.declared.event.Event.{Event as Said};
ghost use Rattle.rm_replay.specs.Headline.{KeepsPairOf};
ghost use Rattle.rm_replay.specs.Net.{AreOfNet};
ghost use Rattle.rm_replay.specs.Played.{KeepsPlayed, Played, Story, start_world};
ghost use Rattle.rm_replay.specs.Sent.{AcceptedIsSent};
ghost use Rattle.rm_replay.specs.Shows.{Holds, IsLeftOfLine, Scene};
ghost use Rattle.rm_replay.specs.Unarmed.{ArmsNone, TellsCalm};
ghost use Rattle.std.specs.List.{AllByRecursion};

use node_laws::laws::{own_terms_are_terms, there_are_own_terms};
use rm_base::wire::laws::room_goes_by_the_bytes;
use rm_protocol::laws::{
    a_delivered_message_is_taken as a_message_is_taken, a_run_goes_on, accepted_is_sent,
    every_run_keeps_the_word, without_an_arm_nothing_fails,
};

/// There are terms of nodes with a network.
pub fn there_are_nets()
    ensures { (terms : Terms) × AreOfNet terms }
{
    room_goes_by_the_bytes();
    there_are_own_terms();
}

/// A script that was played is a run of the protocol. So what a law says of the worlds of all runs holds there.
pub fn a_played_script_is_a_run()
    ensures { (terms : Terms) (script : List Said) (s : Story) → Played terms script s
        → (events : List Happening) × (s.world ≡ run terms events start_world) }
{
    a_run_goes_on();
}

/// Two disks that hold what a played script made keep the headline, and what is said of loose sequences, by all that
/// its nodes ever had. So do two disks where memory was wanting in a further line, perhaps by all that the nodes ever
/// had once that line was played.
pub fn a_played_script_keeps_the_headline()
    ensures whole { (terms : Terms) (script : List Said) (s : Story) → AreOfNet terms → Played terms script s
        → (scene : Scene) → Holds s.world scene → KeepsPairOf s.world scene }
    ensures short { (terms : Terms) (script : List Said) (s : Story) → AreOfNet terms → Played terms script s
        → (line : Said) (scene : Scene) → IsLeftOfLine terms s.world line scene
        → KeepsPairOf s.world scene ⊎ KeepsPlayed terms (script ++ line ∷ []) scene }
{
    a_run_goes_on();
    every_run_keeps_the_word();
    own_terms_are_terms();
}

/// At each pair of images of both disks, which keep the headline, all that a source ever accepted is what the report of
/// a played script says was sent. A `send` counts whose line came out as `ok`, or as `disk` where the next crash of its
/// node prints one entry more, or where none follows the image has one.
pub fn what_was_accepted_was_sent()
    ensures { (terms : Terms) (script : List Said) (s : Story) → AreOfNet terms → Played terms script s
        → (scene : Scene) → Holds s.world scene → AcceptedIsSent s.world script s.report scene }
{
    a_run_goes_on();
    accepted_is_sent();
    every_run_keeps_the_word();
    own_terms_are_terms();
}

/// At each moment of a script, a delivered message that is new, within the window and for an open sequence is recorded
/// by that line, and released where it closes the gap or the sequence is loose, unless the node was down, its disk
/// failed, an acknowledgement of the message was invalid or the store was full.
pub fn a_delivered_message_is_taken()
    ensures { (terms : Terms) (script : List Said) (count : ℕ) (s : Story) → AreOfNet terms
        → AllByRecursion IsWithin script → Played terms (take count script) s → TakesNew terms s.world }
{
    a_run_goes_on();
    a_message_is_taken();
    own_terms_are_terms();
}

/// Where no line arms a disk, none fails and no node is down.
pub fn without_an_arm_no_line_fails()
    ensures { (terms : Terms) (script : List Said) (s : Story) → Played terms script s
        → AllByRecursion ArmsNone script → AllByRecursion TellsCalm s.report }
{
    a_run_goes_on();
    without_an_arm_nothing_fails();
}
