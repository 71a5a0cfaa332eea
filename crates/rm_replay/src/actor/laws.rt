//! Laws of nodes of a script.
ghost use Rattle.rm_replay.specs.Actor.Actored.{Actored};
ghost use Rattle.rm_replay.specs.Actor.Stands.{Leaves, Stands};
ghost use Rattle.rm_disk.specs.Told.{Told};
ghost use Rattle.rm_protocol.specs.Node.{Node as Value};

/// Each image of a node's disk stands for entries that one more crash of the node leaves, which are those of a node.
pub fn each_image_is_left()
    ensures { (x : Value) (now : Told) (a : Actored) → Stands x now a → Leaves x now.past }
{}
