//! Choices and environments.
ghost use Rattle.std.specs.Prelude.{◌≡◌, ◌≤◌, ◌∷◌, ◌++◌, OnOk, length, take};
ghost use Rattle.fr_meaning.specs.Words.{on_ok};
ghost use Rattle.fr_meaning.specs.Evaluation.{choose};
ghost use Rattle.fr_forms.specs.Lent.{bound};
ghost use Rattle.fr_forms.specs.Begins.{args_of};
ghost use Rattle.fr_afresh.specs.Choices.{choice_of};

use fr_core::{Core, Key};
use fr_forms::{CallArgs, Seen, test_in};
use fr_value::{Bad, Now, Value};
use sqlite_items::Items;
use std::alloc::AllocError;

/// What a switch goes on with: the key that it chose by, and the number and the expression of the part that it chose.
#[derive(Drop)]
pub struct Choice<'a> {
    pub key: Key,
    pub number: usize,
    pub expr: &'a Core,
}

/// What the value of a test chooses, or why that can't be told.
pub fn choice_by<'a>(a: &'a Core, b: &'a Core, test: &Seen) -> Result<Choice<'a>, Bad>
    ensures { on_ok choice_of result ≡ choose a.now b.now test.now }
{
    if test_in(test)? {
        Ok(Choice {
            key: Key::Test(true),
            number: 1,
            expr: a,
        })
    } else {
        Ok(Choice {
            key: Key::Test(false),
            number: 2,
            expr: b,
        })
    }
}

/// Cuts an environment to its first `len` values.
pub fn cut(env: &mut Items<Seen>, len: usize)
    requires { len ≤ length env.old }
    ensures { env.new ≡ take len env.old }
{
    while env.len() > len {
        let _last = env.pop();
    }
}

/// Puts a value behind the variables in scope, where there is one. It fails only where there is no memory.
fn bind(env: &mut Items<Seen>, value: Option<&Value>) -> Result<(), AllocError>
    ensures { OnOk result (env.new ≡ env.old ++ bound value.entry) }
{
    match value {
        None => Ok(()),
        Some(value) => env.push(Ok(Now::Plain(value.share()?))),
    }
}

/// Puts the arguments of a handler's call behind the variables in scope. It fails only where there is no memory.
pub fn bind_args(env: &mut Items<Seen>, args: CallArgs<'_>) -> Result<(), AllocError>
    ensures { OnOk result (env.new ≡ env.old ++ args_of args.entry) }
{
    env.push(Ok(Now::Plain(args.payload.share()?)))?;
    bind(env, args.state)
}

/// Puts the accumulator of a loop behind the variables in scope, and the item, where the turn goes over one. It fails
/// only where there is no memory.
pub fn bind_turn(env: &mut Items<Seen>, acc: Seen, item: Option<&Value>) -> Result<(), AllocError>
    ensures { OnOk result (env.new ≡ env.old ++ acc ∷ bound item.entry) }
{
    env.push(acc)?;
    bind(env, item)
}
