ghost use Rattle.std.specs.Prelude.{◌≡◌};
ghost use Rattle.aeneas.specs.Limits.{greatest, limit_word};

use aen_base::Which;

/// The greatest count that a limit allows.
pub fn greatest(which: Which) -> u64
    ensures { result ≡ greatest which }
{
    match which {
        Which::Source => 1_048_576,
        Which::Nesting => 100,
        Which::Depth | Which::Else => 250,
        Which::Functions | Which::Paths => 4_096,
        Which::Variables | Which::TypeNodes | Which::Work => 1_000,
        Which::Statements => 2_000,
        Which::Ids => 4_294_967_295,
        Which::Text => 67_108_864,
        Which::TextNesting => 10_000,
        Which::Fuel => 256,
    }
}

/// How a line calls a limit.
pub fn limit_word(which: Which) -> &'static str
    ensures { result.now ≡ limit_word which }
{
    match which {
        Which::Source => "source",
        Which::Nesting => "nesting",
        Which::Depth => "depth",
        Which::Else => "else",
        Which::Functions => "functions",
        Which::Variables => "variables",
        Which::TypeNodes => "type_nodes",
        Which::Statements => "statements",
        Which::Paths => "paths",
        Which::Ids => "ids",
        Which::Text => "text",
        Which::TextNesting => "text_nesting",
        Which::Fuel => "fuel",
        Which::Work => "work",
    }
}
