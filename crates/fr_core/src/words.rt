use crate::core_form::{Core, Handler, Loop, Operator};
use fr_value::Primitive;

/// The word of a form.
pub fn core_word(e: &Core) -> &'static str {
    match e {
        Core::Lit(_) => "lit",
        Core::Var(_) => "var",
        Core::Source(_) => "source",
        Core::Let(_, _) => "let",
        Core::If(_, _, _) => "if",
        Core::Apply(_, _) => "call",
        Core::Operator(operator, _) => operator_word(*operator),
        Core::Handler(handler, _, _) => handler_word(*handler),
        Core::Loop(Loop::Fold, _, _) => "fold",
        Core::Loop(Loop::Repeat, _, _) => "repeat",
        Core::Feedback(_, _) => "feedback",
    }
}

fn operator_word(operator: Operator) -> &'static str {
    match operator {
        Operator::Prim(_) => "prim",
        Operator::MergeE => "merge-e",
        Operator::Hold => "hold",
        Operator::Changes => "changes",
        Operator::OnceE => "once-e",
        Operator::Delay => "delay",
        Operator::DelayE => "delay-e",
    }
}

fn handler_word(handler: Handler) -> &'static str {
    match handler {
        Handler::MapE => "map-e",
        Handler::FilterE => "filter-e",
        Handler::CollectB => "collect-b",
        Handler::CollectE => "collect-e",
    }
}

/// The first name of a primitive.
pub fn prim_word(prim: Primitive) -> &'static str {
    match prim {
        Primitive::Add => "+",
        Primitive::Mul => "*",
        Primitive::Sub => "-",
        Primitive::Quotient => "quotient",
        Primitive::Remainder => "remainder",
        Primitive::Modulo => "modulo",
        Primitive::Abs => "abs",
        Primitive::Min => "min",
        Primitive::Max => "max",
        Primitive::Equal => "=",
        Primitive::Less => "<",
        Primitive::Greater => ">",
        Primitive::AtMost => "<=",
        Primitive::AtLeast => ">=",
        Primitive::IsZero => "zero?",
        Primitive::IsPositive => "positive?",
        Primitive::IsNegative => "negative?",
        Primitive::IsEven => "even?",
        Primitive::IsOdd => "odd?",
        Primitive::Not => "not",
        Primitive::Same => "equal?",
        Primitive::IsInteger => "integer?",
        Primitive::IsBoolean => "boolean?",
        Primitive::IsSymbol => "symbol?",
        Primitive::IsString => "string?",
        Primitive::IsList => "list?",
        Primitive::IsNull => "null?",
        Primitive::IsPair => "pair?",
        Primitive::List => "list",
        Primitive::Cons => "cons",
        Primitive::Car => "car",
        Primitive::Cdr => "cdr",
        Primitive::Length => "length",
        Primitive::Append => "append",
        Primitive::Reverse => "reverse",
        Primitive::ListRef => "list-ref",
        Primitive::StringLength => "string-length",
        Primitive::StringAppend => "string-append",
        Primitive::StringEqual => "string=?",
        Primitive::SymbolToString => "symbol->string",
        Primitive::NumberToString => "number->string",
        Primitive::Raise => "raise",
    }
}
