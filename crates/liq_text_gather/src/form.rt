//! Lines of a form, gathered in a list.

ghost use Rattle.std.specs.Prelude.{◌≡◌, ◌≤◌, ◌∷◌, ◌++◌, [], ℕ, List, Option, Some, None, IfSome, OnOk, IsOkUnless, length};
ghost use Rattle.std.specs.List.{AllZip};
ghost use Rattle.liq_types.specs.declared.amounts.TheConstants.{LINE_BYTES, LINES_MOST};
ghost use Rattle.liq_outside.specs.Faults.{Rose};
ghost use Rattle.liq_text_lines.specs.Lines.{lines_in};
ghost use Rattle.liq_text_lines.specs.Reading.{taken_most, ReadsAtMost};
ghost use Rattle.liq_text_gather.specs.Gathering.{Gathers, ReadCause};

use crate::gatherer::Gatherer;
use crate::reading::gather_into;
use liq_outside::Source;
use liq_text_lines::Stop;
use liq_types::NoMemory;
use std::alloc::Global;

/// A form of lines.
pub trait Form {
    /// What a line of this form says.
    type Item;

    /// The line says this.
    ghost says: { List ℕ → Self.Item → Type 0 };

    /// What the line says, or `None` exactly where it is none of this form.
    fn read(line: &[u8]) -> Option<Self::Item>
        ensures found { IfSome result (λ item. says line.now item) }
        ensures none { result ≡ None → (item : Self.Item) → says line.now item → ⊥ };

    // A line of this form is no longer than a line may be.
    ghost short: { (line : List ℕ) (item : Self.Item) → says line item → length line ≤ LINE_BYTES };
}

/// Reads the source to its end, each line one of this form, and gives what they say, in order. It
/// stops at the first of these:
///
/// - [`Stop::BadLine`]: the line of this number, counted from 1, is none of this form;
/// - [`Stop::ReadFault`]: the source met a fault;
/// - [`Stop::NoMemory`]: there was no memory;
/// - [`Stop::Limit`]: a line behind the last that is answered begins.
pub fn gather<F: Form, S: Source>(alloc: Global, input: &mut S) -> Result<Vec<F::Item>, Stop>
where
    F::Item: Drop,
    ensures read { Gathers F.says (λ items said. items.items ≡ said) result (S.at input.old).left
        (S.at input.new).left }
    // At most as many lines are taken from the source as are read, and what one read asks for.
    ensures takes { ReadsAtMost (taken_most LINES_MOST) (S.at input.old).left
        (S.at input.new).left }
    ensures source { ReadCause result (S.at input.old).faults (S.at input.new).faults }

    // Where each line says something, none is too many and the source meets no fault, memory alone
    // can be missing.
    ensures complete { (bytes : List ℕ) → (S.at input.old).left ≡ Some bytes → (said : List F.Item)
        → AllZip F.says (lines_in bytes) said → length said ≤ LINES_MOST
        → (Rose (S.at input.old).faults (S.at input.new).faults → ⊥)
        → IsOkUnless result Stop.NoMemory }
{
    let mut list = Listed::<F> {
        items: Vec::new(alloc),
    };
    gather_into(alloc, &mut list, input)?;
    Ok(list.items)
}

/// What lines of a form said.
#[derive(Drop)]
struct Listed<F: Form>
where
    F::Item: Drop,
{
    items: Vec<F::Item>,
}

impl<F: Form> Gatherer for Listed<F>
where
    F::Item: Drop,
{
    type Item = F::Item;

    ghost says = { F.says };

    ghost holds = { λ list said. list.items.items ≡ said };

    fn keep(&mut self, line: &[u8], number: u64) -> Result<(), Stop> {
        match F::read(line) {
            Some(item) => {
                push(&mut self.items, item)?;
                Ok(())
            }
            None => Err(Stop::BadLine(number)),
        }
    }

    ghost short = { F.short };
}

/// Puts one more behind the others.
fn push<T: Drop>(items: &mut Vec<T>, item: T) -> Result<(), NoMemory>
    ensures { OnOk result (items.new.items ≡ items.old.items ++ item ∷ []) }
{
    match items.push(item) {
        Ok(()) => Ok(()),
        Err(_) => Err(NoMemory),
    }
}
