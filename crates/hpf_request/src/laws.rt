//! Laws of what the words and the text come to, each the contract of a function that does nothing.

ghost use Rattle.std.specs.Prelude.{◌≡◌, ℕ, ℤ, List, Some};
ghost use Rattle.hpf_frame.specs.FrameFile.{Shape};
ghost use Rattle.hpf_io.specs.Files.{Files};
ghost use Rattle.hpf_io.specs.States.{LoaderState};
ghost use Rattle.hpf_request.specs.declared.words.Action.{Action};
ghost use Rattle.hpf_stream.specs.Flow.{whole};
ghost use Rattle.hpf_request.specs.Order.{Verdict, Order};
ghost use Rattle.hpf_request.specs.Pipeline.{Pipeline, output_file, run_flow};
ghost use Rattle.hpf_request.specs.Words.{Asks};

use hpf_lex::one_reading;
use hpf_own::laws::element_order;
use hpf_syntax::{never_both, one_fault, one_text};
use hpf_words::one_line;

/// Where the files are told, the words and the text come to one verdict.
pub fn one_verdict()
    ensures { (words : List (List ℕ)) (loader : LoaderState) (all : Files) (v w : Verdict)
        → loader.files ≡ Some all → Order words loader v → Order words loader w → v ≡ w }
{
    // What is known of words, texts and tokens.
    one_line();
    one_reading();
    one_text();
    one_fault();
    never_both();
    // What is known of the elements of an array.
    element_order();
}

/// The words ask for one action of one map at most.
pub fn one_asking()
    ensures { (words : List (List ℕ)) (a b : Action) (m n : List ℕ)
        → Asks words a m → Asks words b n → (a ≡ b) × (m ≡ n) }
{
    one_line();
}

/// What a run gives is the frame file of the frames that leave its pipeline.
pub fn a_run_gives_a_file()
    ensures { (shape : Shape) (pipeline : Pipeline) (lines : List (List ℤ) → List ℕ) (frames : List (List ℤ))
        → whole (run_flow pipeline lines) shape frames ≡ output_file shape pipeline frames }
{}
