use crate::core_form::{Core, Operator};
use crate::program::{Event, Function, Input, Item, Program};
use crate::words::{core_word, prim_word};
use fr_value::{Symbol, Value, text_into};
use itoa::Buffer;
use std::alloc::{AllocError, Global};

fn word_into(out: &mut Vec<u8>, word: &str) -> Result<(), AllocError> {
    out.extend_from_slice(word.as_bytes())
}

/// A space and a number.
fn number_into(out: &mut Vec<u8>, number: u32) -> Result<(), AllocError> {
    out.push(b' ')?;
    out.extend_from_slice(Buffer::new().format(number).as_bytes())
}

/// A space and a name.
fn name_into(out: &mut Vec<u8>, name: &Symbol) -> Result<(), AllocError> {
    out.push(b' ')?;
    word_into(out, name.as_str())
}

/// A space and a value.
fn value_into(out: &mut Vec<u8>, value: &Value) -> Result<(), AllocError> {
    out.push(b' ')?;
    text_into(value, out)
}

/// What an expression has beside its parts.
fn label_into(out: &mut Vec<u8>, e: &Core) -> Result<(), AllocError> {
    match e {
        Core::Lit(value) => value_into(out, value),
        Core::Var(variable) => number_into(out, variable.0),
        Core::Source(source) => number_into(out, source.0),
        Core::Apply(function, _) => number_into(out, function.0),
        Core::Operator(Operator::Prim(prim), _) => {
            out.push(b' ')?;
            word_into(out, prim_word(*prim))
        }
        _ => Ok(()),
    }
}

/// A space and an expression, in brackets.
fn core_into(out: &mut Vec<u8>, e: &Core) -> Result<(), AllocError> {
    word_into(out, " (")?;
    word_into(out, core_word(e))?;
    label_into(out, e)?;
    let mut number = 0;
    while let Some(part) = e.part(number) {
        core_into(out, part)?;
        number += 1;
    }
    out.push(b')')?;
    Ok(())
}

fn input_into(out: &mut Vec<u8>, input: &Input) -> Result<(), AllocError> {
    word_into(out, "(input")?;
    number_into(out, input.source.0)?;
    name_into(out, &input.name)?;
    value_into(out, &input.first)?;
    word_into(out, ")\n")
}

fn event_into(out: &mut Vec<u8>, event: &Event) -> Result<(), AllocError> {
    word_into(out, "(event")?;
    number_into(out, event.source.0)?;
    name_into(out, &event.name)?;
    word_into(out, ")\n")
}

fn function_into(out: &mut Vec<u8>, function: &Function) -> Result<(), AllocError> {
    word_into(out, "(function")?;
    name_into(out, &function.name)?;
    number_into(out, function.params)?;
    core_into(out, &function.body)?;
    word_into(out, ")\n")
}

fn item_into(out: &mut Vec<u8>, item: &Item) -> Result<(), AllocError> {
    match item {
        Item::Define(e) => {
            word_into(out, "(define")?;
            core_into(out, e)?;
        }
        Item::Show(name, e) => {
            word_into(out, "(show")?;
            name_into(out, name)?;
            core_into(out, e)?;
        }
    }
    word_into(out, ")\n")
}

fn inputs_into(out: &mut Vec<u8>, inputs: &[Input]) -> Result<(), AllocError> {
    for input in inputs {
        input_into(out, input)?;
    }
    Ok(())
}

fn events_into(out: &mut Vec<u8>, events: &[Event]) -> Result<(), AllocError> {
    for event in events {
        event_into(out, event)?;
    }
    Ok(())
}

fn functions_into(out: &mut Vec<u8>, functions: &[Function]) -> Result<(), AllocError> {
    for function in functions {
        function_into(out, function)?;
    }
    Ok(())
}

fn body_into(out: &mut Vec<u8>, items: &[Item]) -> Result<(), AllocError> {
    for item in items {
        item_into(out, item)?;
    }
    Ok(())
}

/// A readable text of a program, for people: a line for each input, event, function and item, in this order.
///
/// An expression stands in brackets, its form's word first, then its number, value or primitive where it has one, and
/// then its parts in their order, as `(show y (prim + (source 1) (lit 1)))`. It fails only where there is no memory.
pub fn core_text(alloc: Global, program: &Program) -> Result<Vec<u8>, AllocError> {
    let mut out = Vec::new(alloc);
    inputs_into(&mut out, program.inputs.as_slice())?;
    events_into(&mut out, program.events.as_slice())?;
    functions_into(&mut out, program.functions.as_slice())?;
    body_into(&mut out, program.body.as_slice())?;
    Ok(out)
}
