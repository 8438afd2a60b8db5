//! The values of the words, as `clap` found them.
ghost use Rattle.std.specs.Prelude.{◌≡◌, map, option_map};
ghost use Rattle.clap.specs.Words.{all_of, first_of, found_of, rows_of, subcommand_rows_of};
ghost use Rattle.command_table.specs.Grammar.{value};
ghost use Rattle.ledger_cli.specs.Flags.{is_given as given};

use clap::ArgMatches;

/// The subcommand that was met, with its values.
pub(crate) fn parsed_subcommand<'m, 'a>(
    matches: &'m ArgMatches<'a>,
) -> Option<(&'a str, &'m ArgMatches<'a>)>
    ensures { option_map (λ p. (p.0.now, rows_of (found_of p.1.now))) result
        ≡ subcommand_rows_of matches.now }
{
    matches.subcommand()
}

/// The value of a required argument.
pub(crate) fn value_of<'a>(matches: &ArgMatches<'a>, name: &str) -> &'a str
    ensures { result.now ≡ value name.now (rows_of (found_of matches.now)) }
{
    matches.get_str(name).unwrap_or("")
}

/// The value of an argument that may be left out.
pub(crate) fn optional_value<'a>(matches: &ArgMatches<'a>, name: &str) -> Option<&'a str>
    ensures { option_map (λ value. value.now) result ≡ first_of name.now (rows_of (found_of matches.now)) }
{
    matches.get_str(name)
}

/// All values of an argument, in their order; None if it has none.
pub(crate) fn values_of<'m, 'a>(matches: &'m ArgMatches<'a>, name: &str) -> Option<&'m [&'a str]>
    ensures { option_map (λ values. map (λ value. value.now) values.now) result
        ≡ all_of name.now (rows_of (found_of matches.now)) }
{
    matches.get_strs(name)
}

/// Whether a flag is among the words.
pub(crate) fn is_given<'a>(matches: &ArgMatches<'a>, flag: &str) -> bool
    ensures { result ≡ given flag.now (rows_of (found_of matches.now)) }
{
    value_of(matches, flag) == "true"
}
