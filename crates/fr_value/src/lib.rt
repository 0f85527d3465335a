//! Values of programs: integers, truth values, symbols, strings and proper lists.
//!
//! Contracts see a list as a list of `Datum`, plain data that is equal exactly where the structure is.
#![tactic(auto)]

mod bounds;
mod equality;
mod ids;
mod list;
mod names;
mod now;
mod primitive;
mod slices;
mod string_text;
mod symbols;
mod text;
mod tree;
mod value;

pub use bounds::MAX_TEXT_BYTES;
pub use equality::same;
pub use ids::{EraId, FunId, KernId, NodeId, SiteId, SrcId, VarId};
pub use list::{List, ListRefusal};
pub use names::symbol;
pub use now::{Bad, Held, Now};
pub use primitive::Primitive;
pub use string_text::Text;
pub use symbols::{Symbol, SymbolRefusal};
pub use text::text_into;
pub use value::{Datum, Value};
