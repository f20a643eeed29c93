//! The laws of texts and of code files, as contracts of functions that do nothing.
ghost use Rattle.alaska_run.specs.Reading.{EachIsRead, NotBoth, OneTree, OneReason};
ghost use Rattle.alaska_run.specs.Loading.{EachIsLoaded, LoadedOrRefused, OneLoaded, OneRefusal, WhatIsBuiltIsLoaded};

/// Each text has a typed tree, and one only, or is refused, for one reason only.
pub fn read_each_text_once()
    ensures either { EachIsRead }
    ensures not_both { NotBoth }
    ensures one_tree { OneTree }
    ensures one_reason { OneReason }
{
    c_lex::laws::each_is_read();
    c_lex::laws::exclusive();
    c_lex::laws::only();
    c_lex::laws::one_refusal();
    c_grammar::laws::tokens_end_once();
    c_grammar::laws::exclusive();
    c_grammar::laws::one_refusal();
    c_grammar::laws::each_is_judged();
}

/// Bytes are loaded to safe code, one only, or are refused, for one reason only.
pub fn load_each_file_once()
    ensures either { EachIsLoaded }
    ensures not_both { LoadedOrRefused }
    ensures one_code { OneLoaded }
    ensures one_reason { OneRefusal }
{
    code_file::laws::files_are_exact();
    code_load::laws::loading_has_one_answer();
}

/// What mode build writes of a text is a code file that is loaded to the text's own checked code, and to no other. So what is said of a run of it
/// is said to the text's tree, as of a run of the text.
pub fn what_is_built_is_loaded()
    ensures { WhatIsBuiltIsLoaded }
{
    code_file::laws::files_are_exact();
    code_file::laws::placed_code_is_its_filling();
}
