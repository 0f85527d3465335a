/// A primitive of the language.
///
/// `car` and `first` are one, and so are `cdr` and `rest`.
#[derive(Clone, Copy, Debug, PartialEq, Eq)]
pub enum Primitive {
    /// `+`
    Add,
    /// `*`
    Mul,
    /// `-`
    Sub,
    /// `quotient`
    Quotient,
    /// `remainder`
    Remainder,
    /// `modulo`
    Modulo,
    /// `abs`
    Abs,
    /// `min`
    Min,
    /// `max`
    Max,
    /// `=`
    Equal,
    /// `<`
    Less,
    /// `>`
    Greater,
    /// `<=`
    AtMost,
    /// `>=`
    AtLeast,
    /// `zero?`
    IsZero,
    /// `positive?`
    IsPositive,
    /// `negative?`
    IsNegative,
    /// `even?`
    IsEven,
    /// `odd?`
    IsOdd,
    /// `not`
    Not,
    /// `equal?`
    Same,
    /// `integer?`
    IsInteger,
    /// `boolean?`
    IsBoolean,
    /// `symbol?`
    IsSymbol,
    /// `string?`
    IsString,
    /// `list?`
    IsList,
    /// `null?`
    IsNull,
    /// `pair?`
    IsPair,
    /// `list`
    List,
    /// `cons`
    Cons,
    /// `car` and `first`
    Car,
    /// `cdr` and `rest`
    Cdr,
    /// `length`
    Length,
    /// `append`
    Append,
    /// `reverse`
    Reverse,
    /// `list-ref`
    ListRef,
    /// `string-length`
    StringLength,
    /// `string-append`
    StringAppend,
    /// `string=?`
    StringEqual,
    /// `symbol->string`
    SymbolToString,
    /// `number->string`
    NumberToString,
    /// `raise`
    Raise,
}
