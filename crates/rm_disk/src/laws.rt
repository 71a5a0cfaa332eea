//! What follows from the model of a disk, for every list of its calls. Proofs above may cite the laws as lemmas of
//! specs/ImageLemmas.

ghost use Rattle.std.specs.Prelude.{◌≡◌, ◌⊎◌, ℕ, false, ◌∷◌, ◌++◌, List, length};
ghost use Rattle.rm_disk.specs.Call.{Call, Synced, settled, state, seen_of, left_by};
ghost use Rattle.rm_disk.specs.Image.{IsImage, MayLeave, settles, LeftSince};

/// As it reads, a disk is one of its images.
pub fn a_read_is_an_image()
    ensures { (past : List Call) → MayLeave past (seen_of past) }
{}

/// A crash leaves an image, whatever its choice.
pub fn a_crash_leaves_an_image()
    ensures { (past : List Call) (choice : ℕ) → MayLeave past (left_by choice (state past)) }
{}

/// Where nothing is unsynced, a crash leaves what a read gives.
pub fn a_settled_disk_has_one_image()
    ensures { (bytes image : List ℕ) → IsImage (settled bytes) image → image ≡ bytes }
{}

/// After a sync a crash leaves what a read gives.
pub fn a_sync_keeps_all()
    ensures { (past : List Call) (image : List ℕ) → MayLeave (Synced ∷ past) image → image ≡ seen_of past }
{}

/// A crash inside a sync is covered by one before it: an image after the sync was one before.
pub fn a_sync_adds_no_image()
    ensures { (past : List Call) (image : List ℕ) → MayLeave (Synced ∷ past) image → MayLeave past image }
{}

/// A crash inside a write, a cut or a failed call is covered by one after it: an image before the call is one still.
pub fn an_image_stays()
    ensures { (past : List Call) (call : Call) (image : List ℕ) → settles call ≡ false → MayLeave past image →
        MayLeave (call ∷ past) image }
{}

/// What a crash may leave now, one at some moment since any other might have left.
pub fn now_is_a_moment()
    ensures { (past : List Call) (t : ℕ) (image : List ℕ) → MayLeave past image → LeftSince past t image }
{}

/// What a crash might have left since now, one now may leave: there is no other moment.
pub fn now_is_the_last_moment()
    ensures { (past : List Call) (image : List ℕ) → LeftSince past (length past) image → MayLeave past image }
{}

/// What a crash might have left since a moment, one before or one after a later moment might have left.
pub fn spans_join()
    ensures { (added middle : List Call) (t : ℕ) (image : List ℕ) → LeftSince (added ++ middle) t image →
        LeftSince (added ++ middle) (length middle) image ⊎ LeftSince middle t image }
{}
