//! The table of actions.

ghost use Rattle.std.specs.Prelude.{◌≡◌, ◌↔◌, IfSome, IfNone, IsTrue};
ghost use Rattle.hpf_words.specs.declared.asked.Asked.{Asked};
ghost use Rattle.hpf_words.specs.Table.{spelling, IsMet, IsNothing};

use crate::asked::Asked;
use crate::given::Given;

/// The number of workers where none is given.
const DEFAULT_WORKERS: u32 = 1;

/// The seed where none is given.
const DEFAULT_SEED: u32 = 0;

/// What a word asks for with what else is given: the row of the action has to be met, and nothing may be left over.
pub(crate) fn asked<'a>(word: &str, mut given: Given<'a>) -> Option<Asked<'a>>
    ensures found { IfSome result (λ asked. (word.now ≡ spelling asked) × IsMet asked given.entry) }
    ensures none { IfNone result ((asked : Asked) → word.now ≡ spelling asked → ¬ IsMet asked given.entry) }
{
    match word {
        "check" => given.only(Asked::Check),
        "show" => given.only(Asked::Show),
        "owners" => {
            let name = given.name.take()?;
            given.only(Asked::Owners { name })
        }
        "local" => {
            let name = given.name.take()?;
            let processor = given.processor.take()?;
            given.only(Asked::Local { name, processor })
        }
        "plan" => given.only(Asked::Plan),
        "run" => {
            let workers = given.workers.take().unwrap_or(DEFAULT_WORKERS);
            given.only(Asked::Run { workers })
        }
        "parts" => {
            let stage = given.stage.take()?;
            let workers = given.workers.take().unwrap_or(DEFAULT_WORKERS);
            given.only(Asked::Parts { stage, workers })
        }
        "make" => {
            let frames = given.frames.take()?;
            let seed = given.seed.take().unwrap_or(DEFAULT_SEED);
            given.only(Asked::Make { frames, seed })
        }
        "trial" => {
            let frames = given.frames.take()?;
            let seed = given.seed.take().unwrap_or(DEFAULT_SEED);
            let workers = given.workers.take().unwrap_or(DEFAULT_WORKERS);
            given.only(Asked::Trial {
                frames,
                seed,
                workers,
            })
        }
        _ => None,
    }
}

impl Given<'_> {
    /// What is asked for, where nothing else is given.
    fn only<'a>(self, asked: Asked<'a>) -> Option<Asked<'a>>
        ensures found { IfSome result (λ found. (found ≡ asked.entry) × IsNothing self.entry) }
        ensures none { IfNone result (¬ IsNothing self.entry) }
    {
        if self.is_nothing() { Some(asked) } else { None }
    }

    /// Whether nothing is given.
    fn is_nothing(&self) -> bool
        ensures { IsTrue result ↔ IsNothing self.now }
    {
        self.name.is_none()
            && self.processor.is_none()
            && self.stage.is_none()
            && self.frames.is_none()
            && self.seed.is_none()
            && self.workers.is_none()
    }
}
