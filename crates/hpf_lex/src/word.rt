//! A name or a reserved word.

ghost use Rattle.std.specs.Prelude.{◌≡◌, ◌↔◌, [], map, IsSome, IfSome, IsTrue, length, ◌≤◌};
ghost use Rattle.std.specs.List.{list_all};
ghost use Rattle.hpf_lex.specs.Bytes.{upper, is_name_byte};
ghost use Rattle.hpf_lex.specs.Name.{is_name};

use crate::bytes::{is_letter, is_name_byte, upper};
use std::marker::Model;

/// A name or a reserved word: at most 31 bytes, in upper case. It is seen as the list of its bytes.
#[derive(Clone, Copy)]
pub struct Word {
    bytes: [u8; 31],
    len: u8,
}

impl Model for Word {
    ghost use Rattle.std.specs.Prelude.{ℕ, List};
    ghost use Rattle.std.specs.Coded.{coded_ℕ, coded_list};

    ghost Value = { List ℕ };

    ghost coded = { coded_list coded_ℕ };

    ghost use Rattle.hpf_lex.specs.Word.{word_bytes, IsPadded, padded, padded-word_bytes};

    ghost view = { word_bytes };

    ghost invariant = { IsPadded };

    ghost inverse = { padded };

    ghost inverse_ok = { padded-word_bytes };
}

impl Word {
    /// The word of no bytes, which tokens that are no words have.
    pub fn empty() -> Word
        ensures { result ≡ [] }
    {
        Word {
            bytes: [0; 31],
            len: 0,
        }
    }

    /// The word that these bytes spell, letters taken as upper case. None where they aren't a letter and then letters,
    /// digits and `_`, at most 31 in all.
    pub fn from_bytes(bytes: &[u8]) -> Option<Word>
        ensures some { IsSome result ↔ IsTrue (is_name bytes.now) }
        ensures upper_case { IfSome result (λ word. word ≡ map upper bytes.now) }
    {
        if !is_name(bytes) {
            return None;
        }
        let mut word = [0; 31];
        for (i, byte) in bytes.iter().enumerate() {
            word[i] = upper(*byte);
        }
        Some(Word {
            bytes: word,
            len: bytes.len() as u8,
        })
    }

    /// Its bytes, in upper case.
    pub fn as_slice(&self) -> &[u8]
        ensures bytes { result.now ≡ self.now }
        ensures few { length self.now ≤ 31 }
        ensures upper_case { map upper self.now ≡ self.now }
    {
        let len = self.len as usize;
        &self.bytes[..len]
    }
}

/// A letter and then letters, digits and `_`, at most 31 in all.
#[tactic(auto, using(crate::proofs::Words::is_name_parts))]
fn is_name(bytes: &[u8]) -> bool
    ensures { result ≡ is_name bytes.now }
{
    if bytes.is_empty() || bytes.len() > 31 {
        return false;
    }
    is_letter(bytes[0]) && are_name_bytes(&bytes[1..])
}

fn are_name_bytes(bytes: &[u8]) -> bool
    ensures { result ≡ list_all is_name_byte bytes.now }
{
    bytes.iter().all(|byte| is_name_byte(*byte))
}
