ghost use Rattle.std.specs.Prelude.{◌≡◌};
ghost use Rattle.fr_prims.specs.Names.{find, prim_named as named, arithmetic, tests, lists_and_strings};

use fr_value::Primitive;

/// The primitive of arithmetic and comparison that has a name.
fn arithmetic_named(name: &str) -> Option<Primitive>
    ensures { result ≡ find arithmetic name.now }
{
    match name {
        "+" => Some(Primitive::Add),
        "*" => Some(Primitive::Mul),
        "-" => Some(Primitive::Sub),
        "quotient" => Some(Primitive::Quotient),
        "remainder" => Some(Primitive::Remainder),
        "modulo" => Some(Primitive::Modulo),
        "abs" => Some(Primitive::Abs),
        "min" => Some(Primitive::Min),
        "max" => Some(Primitive::Max),
        "=" => Some(Primitive::Equal),
        "<" => Some(Primitive::Less),
        ">" => Some(Primitive::Greater),
        "<=" => Some(Primitive::AtMost),
        ">=" => Some(Primitive::AtLeast),
        _ => None,
    }
}

/// The primitive that tests a value and has a name.
fn test_named(name: &str) -> Option<Primitive>
    ensures { result ≡ find tests name.now }
{
    match name {
        "zero?" => Some(Primitive::IsZero),
        "positive?" => Some(Primitive::IsPositive),
        "negative?" => Some(Primitive::IsNegative),
        "even?" => Some(Primitive::IsEven),
        "odd?" => Some(Primitive::IsOdd),
        "not" => Some(Primitive::Not),
        "equal?" => Some(Primitive::Same),
        "integer?" => Some(Primitive::IsInteger),
        "boolean?" => Some(Primitive::IsBoolean),
        "symbol?" => Some(Primitive::IsSymbol),
        "string?" => Some(Primitive::IsString),
        "list?" => Some(Primitive::IsList),
        "null?" => Some(Primitive::IsNull),
        "pair?" => Some(Primitive::IsPair),
        _ => None,
    }
}

/// The primitive on lists or strings, or `raise`, that has a name.
fn list_or_string_named(name: &str) -> Option<Primitive>
    ensures { result ≡ find lists_and_strings name.now }
{
    match name {
        "list" => Some(Primitive::List),
        "cons" => Some(Primitive::Cons),
        "car" => Some(Primitive::Car),
        "first" => Some(Primitive::Car),
        "cdr" => Some(Primitive::Cdr),
        "rest" => Some(Primitive::Cdr),
        "length" => Some(Primitive::Length),
        "append" => Some(Primitive::Append),
        "reverse" => Some(Primitive::Reverse),
        "list-ref" => Some(Primitive::ListRef),
        "string-length" => Some(Primitive::StringLength),
        "string-append" => Some(Primitive::StringAppend),
        "string=?" => Some(Primitive::StringEqual),
        "symbol->string" => Some(Primitive::SymbolToString),
        "number->string" => Some(Primitive::NumberToString),
        "raise" => Some(Primitive::Raise),
        _ => None,
    }
}

/// The primitive that has a name, and None where no primitive has it. It takes no memory.
pub fn prim_named(name: &str) -> Option<Primitive>
    ensures { result ≡ named name.now }
{
    match arithmetic_named(name) {
        Some(prim) => Some(prim),
        None => match test_named(name) {
            Some(prim) => Some(prim),
            None => list_or_string_named(name),
        },
    }
}
