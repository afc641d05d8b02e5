//! How large the terms of a type are.
ghost use Rattle.std.specs.Prelude.{◌≡◌, IfOk, string_bytes};
ghost use Rattle.cls_finite.specs.declared.answer.FiniteAnswer.TheVariants.{Finite, Over};
ghost use Rattle.cls_replies.specs.Texts.{sizes_text};

use crate::items::Item;
use cls_base::OutOfMemory;
use cls_finite::Step;
use itoa::Buffer;
use std::alloc::Global;

/// The line of the greatest size.
pub(crate) fn print_size(alloc: Global, size: u64) -> Result<String, OutOfMemory>
    ensures { IfOk result (λ text. string_bytes text ≡ sizes_text (Finite size)) }
{
    Ok(format!(in alloc; "finite {size}\n")?)
}

/// The line that says that the greatest size is over the limit.
pub(crate) fn print_over(alloc: Global) -> Result<String, OutOfMemory>
    ensures { IfOk result (λ text. string_bytes text ≡ sizes_text Over) }
{
    Ok(String::from_str(alloc, "finite over\n")?)
}

impl Item for Step {
    ghost use Rattle.cls_replies.specs.Texts.{step_line};

    ghost line = { step_line };

    fn write_line(&self, text: &mut String) -> Result<(), OutOfMemory> {
        let mut buffer = Buffer::new();
        text.push_str("walk ")?;
        text.push_str(buffer.format(self.goal))?;
        text.push_str(" by ")?;
        text.push_str(buffer.format(self.rule))?;
        text.push_str(" at ")?;
        text.push_str(buffer.format(self.argument))?;
        text.push('\n')?;
        Ok(())
    }
}
