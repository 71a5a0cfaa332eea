//! Laws of a relay.
ghost use Rattle.std.specs.Prelude.{◌≡◌, ℕ, List, Some};
ghost use Rattle.std.specs.List.{AllByRecursion};
ghost use Rattle.rm_protocol.specs.Terms.{Terms};
ghost use Rattle.rm_replay.specs.Net.{AreOfNet};
ghost use Rattle.rm_relay.specs.Headline.{KeepsPromiseIn, KeepsPromiseOf};
ghost use Rattle.rm_relay.specs.Played.{Played, Story};
ghost use Rattle.rm_relay.specs.Reading.{event_in};
ghost use Rattle.rm_relay.specs.Script.{IsFirstBad, IsScript, Says};
ghost use Rattle.rm_relay.specs.Shows.{Holds, IsLeftOfLine, Scene};
ghost use Rattle.rm_relay.specs.Within.{IsWithin};
ghost use Rattle.rm_relay.specs.declared.event.Event.{Event as Said};

use crate::word::laws::every_relay_keeps_its_word;
use node_laws::laws::own_terms_are_terms;

/// A line is read from left to right exactly as the grammar says.
pub fn each_line_is_read()
    ensures said { (line : List ℕ) (event : Said) → Says line event → event_in line ≡ Some event }
    ensures read { (line : List ℕ) (event : Said) → event_in line ≡ Some event → Says line event }
{}

/// What a script says is within its limits.
pub fn values_are_within()
    ensures { (lines : List (List ℕ)) (events : List Said) → IsScript lines events
        → AllByRecursion IsWithin events }
{}

/// A script has no bad line.
pub fn no_bad_line()
    ensures { (lines : List (List ℕ)) (events : List Said) (line : ℕ) → IsScript lines events
        → ¬ (IsFirstBad lines line) }
{}

/// Three disks that hold what a played script made keep the promise of a relay, by all that its nodes ever had; so do
/// three disks where memory was wanting in a further line, perhaps by what its nodes had after that line.
pub fn a_played_relay_keeps_its_promise()
    ensures whole { (terms : Terms) (script : List Said) (s : Story) → AreOfNet terms → Played terms script s
        → (scene : Scene) → Holds s.world scene → KeepsPromiseOf s.world scene }
    ensures short { (terms : Terms) (script : List Said) (s : Story) → AreOfNet terms → Played terms script s
        → (line : Said) (scene : Scene) → IsLeftOfLine terms s.world line scene
        → KeepsPromiseIn terms s.world line scene }
{
    every_relay_keeps_its_word();
    own_terms_are_terms();
}
