//! The names of the codes that a refusal carries.

ghost use Rattle.std.specs.Prelude.{◌≡◌, ◌≤◌, length, IfSome};
ghost use Rattle.std.specs.Option.{option_map};
ghost use Rattle.hpf_status.specs.Names.{name_in, map_names, input_names};

/// The name of a code of a refused mapping text, where it has one.
pub(crate) fn map_name(code: u8) -> Option<&'static str>
    ensures name { option_map (λ name. name.now) result ≡ name_in map_names code }
    ensures short { IfSome result (λ name. length name.now ≤ 20) }
{
    Some(match code {
        1 => "BadByte",
        2 => "BadNumber",
        3 => "NameTooLong",
        4 => "DanglingContinuation",
        5 => "TooLong",
        9 => "NotBuilt",
        10 => "Syntax",
        11 => "LongExpression",
        21 => "Twice",
        22 => "Unknown",
        23 => "Kind",
        24 => "Rank",
        25 => "Empty",
        26 => "Limit",
        27 => "BlockTooSmall",
        28 => "WidthZero",
        29 => "LengthCount",
        30 => "NegativeLength",
        31 => "LengthSum",
        32 => "PlaceCount",
        33 => "PlaceValue",
        34 => "NoArrangement",
        35 => "MappedTwice",
        36 => "DummyTwice",
        37 => "NotLinear",
        38 => "Unlike",
        39 => "Outside",
        40 => "Cycle",
        41 => "Shadow",
        42 => "Pipeline",
        43 => "NotDynamic",
        44 => "Redistribute",
        _ => return None,
    })
}

/// The name of a code of a refused file of frames, where it has one.
pub(crate) fn input_name(code: u8) -> Option<&'static str>
    ensures name { option_map (λ name. name.now) result ≡ name_in input_names code }
    ensures short { IfSome result (λ name. length name.now ≤ 20) }
{
    Some(match code {
        0 => "NotBuilt",
        1 => "Magic",
        2 => "Version",
        3 => "Rank",
        4 => "Width",
        5 => "Zero",
        6 => "Extent",
        7 => "Mark",
        8 => "Number",
        9 => "Count",
        10 => "Trailing",
        11 => "Truncated",
        12 => "TooMany",
        _ => return None,
    })
}
