//! From the text of a source to the woven text.

ghost use Rattle.std.specs.Prelude.{◌<◌, ◌^◌, length, IfOk, IfSome, IfNone};
ghost use Rattle.c_words.specs.declared.word.Mode.TheVariants as mode;
ghost use Rattle.c_parser.specs.FirstForm.Program.{program_of};
ghost use Rattle.c_parser.specs.FirstForm.Texts.{IsTextOf};
ghost use Rattle.weave_cli.specs.Answers.{IsFirstProgram, IsWovenText};

use crate::first_form::layout::program_text;
use crate::first_form::weaving::weave;
use c_lexer::first_tokens;
use c_parser::{FirstTree, Mode, first_tree};
use std::alloc::{AllocError, Global};

/// The tree of a source, or nothing where it isn't of the first form.
fn source_tree(alloc: Global, text: &[u8]) -> Result<Option<FirstTree>, AllocError>
    requires { length text.now < 2 ^ 32 }
    ensures found { IfOk result (λ found. IfSome found (λ tree. IsTextOf mode.Source text.now (program_of tree))) }
    ensures none { IfOk result (λ found. IfNone found (IsFirstProgram text.now → ⊥)) }
{
    let Some(tokens) = first_tokens(alloc, text)? else {
        return Ok(None);
    };
    first_tree(alloc, text, &tokens, Mode::Source)
}

/// The woven text of a source, or nothing where it isn't of the first form.
pub fn woven_text(alloc: Global, text: &[u8]) -> Result<Option<Vec<u8>>, AllocError>
    requires { length text.now < 2 ^ 32 }
    ensures found { IfOk result (λ found. IfSome found (λ written. IsWovenText text.now written.items)) }
    ensures none { IfOk result (λ found. IfNone found (IsFirstProgram text.now → ⊥)) }
{
    let Some(tree) = source_tree(alloc, text)? else {
        return Ok(None);
    };
    let woven = weave(alloc, tree)?;
    Ok(Some(program_text(alloc, &woven)?))
}
