ghost use Rattle.std.specs.Prelude.{◌≡◌};
ghost use Rattle.fr_syntax.specs.Keywords.{find, keyword_named as named, plain_keywords, state_keywords};

/// A word that begins a form, or stands in one at a fixed place. No name may be bound or looked up that is a keyword.
#[derive(Clone, Copy, Debug, PartialEq, Eq)]
pub enum Keyword {
    DefineInput,
    DefineEvent,
    Define,
    Show,
    Quote,
    If,
    Let,
    LetStar,
    Lambda,
    Cond,
    Else,
    And,
    Or,
    ForFold,
    Repeat,
    MapE,
    FilterE,
    MergeE,
    Hold,
    CollectB,
    CollectE,
    Changes,
    OnceE,
    Delay,
    DelayE,
    Feedback,
    /// Reserved: no form begins with it.
    Restart,
    /// Reserved: no form begins with it.
    Every,
}

/// The keyword that a name is, and None where it is none. It takes no memory.
pub fn keyword_named(name: &str) -> Option<Keyword>
    ensures { result ≡ named name.now }
{
    match plain_keyword_named(name) {
        Some(keyword) => Some(keyword),
        None => state_keyword_named(name),
    }
}

/// The keyword of a plain form that a name is.
fn plain_keyword_named(name: &str) -> Option<Keyword>
    ensures { result ≡ find plain_keywords name.now }
{
    match name {
        "define-input" => Some(Keyword::DefineInput),
        "define-event" => Some(Keyword::DefineEvent),
        "define" => Some(Keyword::Define),
        "show" => Some(Keyword::Show),
        "quote" => Some(Keyword::Quote),
        "if" => Some(Keyword::If),
        "let" => Some(Keyword::Let),
        "let*" => Some(Keyword::LetStar),
        "lambda" => Some(Keyword::Lambda),
        "cond" => Some(Keyword::Cond),
        "else" => Some(Keyword::Else),
        "and" => Some(Keyword::And),
        "or" => Some(Keyword::Or),
        _ => None,
    }
}

/// The keyword of a loop, of an event form or of a state form that a name is.
fn state_keyword_named(name: &str) -> Option<Keyword>
    ensures { result ≡ find state_keywords name.now }
{
    match name {
        "for/fold" => Some(Keyword::ForFold),
        "repeat" => Some(Keyword::Repeat),
        "map-e" => Some(Keyword::MapE),
        "filter-e" => Some(Keyword::FilterE),
        "merge-e" => Some(Keyword::MergeE),
        "hold" => Some(Keyword::Hold),
        "collect-b" => Some(Keyword::CollectB),
        "collect-e" => Some(Keyword::CollectE),
        "changes" => Some(Keyword::Changes),
        "once-e" => Some(Keyword::OnceE),
        "delay" => Some(Keyword::Delay),
        "delay-e" => Some(Keyword::DelayE),
        "feedback" => Some(Keyword::Feedback),
        "restart" => Some(Keyword::Restart),
        "every" => Some(Keyword::Every),
        _ => None,
    }
}
