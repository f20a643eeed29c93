//! What is so of the text, as contracts of functions that do nothing.

ghost use Rattle.headline_example.specs.Read.{IsTheTree};
ghost use Rattle.headline_example.specs.Runs.{RunsAreKnown};

/// The text is in the subset, and this is its typed tree.
pub fn it_has_its_tree()
    ensures { IsTheTree }
{
    c_grammar::laws::one_file();
    type_laws::laws::well_formed();
}

/// Each of its runs is known: under every order of turns and every answer.
pub fn its_runs_are_known()
    ensures { RunsAreKnown }
{}
