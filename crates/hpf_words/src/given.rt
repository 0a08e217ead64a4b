//! What is given on a command line besides the action and the map.

ghost use Rattle.std.specs.Prelude.{◌≡◌, codes, map, option_map};
ghost use Rattle.std.specs.Char.{to_ascii_uppercase};
ghost use Rattle.clap.specs.Words.{first_of, found_of, rows_of};
ghost use Rattle.hpf_words.specs.Given.{given_of, number_of, IsNumber, HasNumbers};

use crate::name::Name;
use clap::ArgMatches;

/// What is given besides the action and the map.
#[derive(Drop)]
pub(crate) struct Given<'a> {
    pub(crate) name: Option<Name<'a>>,
    pub(crate) processor: Option<u32>,
    pub(crate) stage: Option<u32>,
    pub(crate) frames: Option<u32>,
    pub(crate) seed: Option<u32>,
    pub(crate) workers: Option<u32>,
}

/// What the matches have of it.
pub(crate) fn given_in<'a>(matches: &ArgMatches<'a>) -> Given<'a>
    requires { HasNumbers (found_of matches.now) }
    ensures { result ≡ given_of (rows_of (found_of matches.now)) }
{
    Given {
        name: name(matches),
        processor: number(matches, "proc"),
        stage: number(matches, "stage"),
        frames: number(matches, "frames"),
        seed: number(matches, "seed"),
        workers: number(matches, "workers"),
    }
}

/// The name of an array.
fn name<'a>(matches: &ArgMatches<'a>) -> Option<Name<'a>>
    ensures { result ≡ option_map (map to_ascii_uppercase) (first_of (codes "NAME") (rows_of (found_of matches.now))) }
{
    let text = matches.get_str("NAME")?;
    Some(Name::new(text))
}

/// The number that an option has.
fn number(matches: &ArgMatches<'_>, option: &str) -> Option<u32>
    requires { IsNumber (found_of matches.now) option.now }
    ensures { result ≡ number_of option.now (rows_of (found_of matches.now)) }
{
    matches.get_one::<u32>(option)
}
