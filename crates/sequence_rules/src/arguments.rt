//! The text among the arguments of a call.

ghost use Rattle.std.specs.Prelude.{◌≡◌};
ghost use Rattle.expr_grammar.specs.Tree.{arg_trees};
ghost use Rattle.sequence_rules.specs.Values.{text_of};

use expr_grammar::Arg;

/// The first text among the arguments, lent without a copy; an empty one where there is none.
pub fn text_of(args: &[Arg]) -> &str
    ensures { result.now ≡ text_of (arg_trees args.now) }
{
    for arg in args {
        if let Arg::Text(text) = arg {
            return text.text.as_str();
        }
    }
    ""
}
