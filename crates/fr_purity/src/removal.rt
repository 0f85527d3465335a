ghost use Rattle.std.specs.Prelude.{◌≡◌, ◌++◌, false, length, slice_set, IfOk, OnOk};
ghost use Rattle.fr_purity.specs.Marks.{set_of};
ghost use Rattle.fr_purity.specs.Removal.{AreUnmarked, IsGreatest, list_at, marked_among, without};

use sqlite_items::Items;
use std::alloc::{AllocError, Global};
use std::mem;

/// Takes the mark from a function, and tells whether it had one.
fn take_mark(marks: &mut [bool], number: usize) -> bool
    ensures was { result ≡ set_of marks.old number }
    ensures after { marks.new ≡ slice_set marks.old number false }
{
    if number >= marks.len() {
        return false;
    }
    mem::replace(&mut marks[number], false)
}

/// Takes the marks from these functions, and appends those that had one to the functions that were taken.
fn take_marks(
    marks: &mut [bool],
    numbers: &[usize],
    taken: &mut Vec<usize>,
) -> Result<(), AllocError>
    ensures marks { OnOk result (marks.new ≡ without marks.old numbers.now) }
    ensures taken { OnOk result (taken.new.items ≡ taken.old.items ++ marked_among marks.old numbers.now) }
{
    for number in numbers {
        if take_mark(marks, *number) {
            taken.push(*number)?;
        }
    }
    Ok(())
}

/// The functions that have no mark.
fn unmarked(alloc: Global, marks: &[bool]) -> Result<Vec<usize>, AllocError>
    ensures { IfOk result (λ v. AreUnmarked marks.now v.items) }
{
    let mut numbers = Vec::new(alloc);
    for (number, marked) in marks.iter().enumerate() {
        if !*marked {
            numbers.push(number)?;
        }
    }
    Ok(numbers)
}

fn callers_of(callers: &[Items<usize>], number: usize) -> &[usize]
    ensures { result.now ≡ list_at callers.now number }
{
    match callers.get(number) {
        Some(list) => list.as_slice(),
        None => &[],
    }
}

/// Takes the marks from all callers of functions that have none, until those that are marked call marked ones alone.
/// Each function is taken once, and the list of its callers read then.
pub fn take_callers(
    alloc: Global,
    marks: &mut [bool],
    callers: &[Items<usize>],
) -> Result<(), AllocError>
    requires { length callers.now ≡ length marks.old }
    ensures { OnOk result (IsGreatest callers.now (set_of marks.old) (set_of marks.new)) }
{
    let mut taken = unmarked(alloc, marks)?;
    while let Some(number) = taken.pop() {
        take_marks(marks, callers_of(callers, number), &mut taken)?;
    }
    Ok(())
}
