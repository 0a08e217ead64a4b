//! What is done with the frames that an action reads.

ghost use Rattle.std.specs.Prelude.{◌≡◌, ℕ, ℤ, List, [], ◌∷◌, ◌++◌, length};
ghost use Rattle.hpf_io.specs.Writes.{Writes};
ghost use Rattle.hpf_frame.specs.FrameFile.{version_one, elements};
ghost use Rattle.hpf_stream.specs.Flow.{Flow};

use hpf_io::{Failed, Sink};

/// Takes frames one after another, and gives something for each.
pub trait Consumer {
    /// What is given for frames.
    ghost flow: { Self → Flow };

    /// It has taken these frames.
    ghost has_taken: { Self → List (List ℤ) → Type 0 };

    /// Gives the bytes in front of those of all frames.
    fn begin<K: Sink>(&self, out: &mut K) -> Result<(), Failed>
        requires { has_taken self.now [] }
        ensures { Writes (K.state out.old) (K.state out.new) result ((flow self.now).front version_one) };

    /// Takes the frame with this number, counted from 0, and gives the bytes for it.
    fn take<K: Sink>(&mut self, number: u32, frame: &[i32], out: &mut K) -> Result<(), Failed>
        requires size { length frame.now ≡ elements (flow self.old).enters }
        requires known { (frames : List (List ℤ)) × has_taken self.old frames }
        ensures given { Writes (K.state out.old) (K.state out.new) result ((flow self.old).frame version_one number frame.now) }
        ensures same { flow self.new ≡ flow self.old }
        ensures taken { (frames : List (List ℤ)) → has_taken self.old frames → length frames ≡ number
            → has_taken self.new (frames ++ frame.now ∷ []) };

    /// Gives the bytes behind so many frames.
    fn close<K: Sink>(&self, count: u32, out: &mut K) -> Result<(), Failed>
        ensures { Writes (K.state out.old) (K.state out.new) result ((flow self.now).close version_one count) };

    /// Gives the lines of notes for the frames that it has taken.
    fn note<N: Sink>(&self, notes: &mut N) -> Result<(), Failed>
        requires known { (frames : List (List ℤ)) × has_taken self.now frames }
        ensures { (frames : List (List ℤ)) → has_taken self.now frames
            → Writes (N.state notes.old) (N.state notes.new) result ((flow self.now).lines frames) };
}
