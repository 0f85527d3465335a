//! The variables in scope at a place.
ghost use Rattle.std.specs.Prelude.{◌≡◌, ◌<◌, ◌-◌, ◌++◌, ◌∷◌, [], Some, None, IsSome, if◌then◌else◌, ℕ, List, length, take, OnOk, OnErr};
ghost use Rattle.std.specs.Option.{option_map};
ghost use Rattle.std.specs.HashMap.{get_by_text};
ghost use Rattle.std.specs.Str.{bytes_eq};
ghost use Rattle.fr_scope.specs.Meanings.{binds, innermost, most_numbered};

use fr_value::{Symbol, VarId};
use std::alloc::{AllocError, Global};
use std::collections::HashMap;
use std::marker::Model;

/// The variables in scope at a place, from the outermost on. Contracts see the list of what binds them: a name, or none for
/// a variable that has no name.
#[derive(Drop)]
pub struct Scope {
    variables: Vec<Variable>,
    /// The innermost variable of each name.
    innermost: HashMap<String, VarId>,
}

/// A variable in scope.
#[derive(Drop)]
struct Variable {
    name: Option<Symbol>,
    /// The variable of the same name that this one hides.
    hidden: Option<VarId>,
}

impl Model for Scope {
    ghost use Rattle.std.specs.Prelude.{List};
    ghost use Rattle.std.specs.HashMap.{get_by_text};
    ghost use Rattle.fr_scope.specs.Meanings.{Binder};
    ghost use Rattle.fr_scope.specs.Hiding.{binders, IsKept};

    ghost Value = { List Binder };

    ghost view = { λ s. binders s.variables.items };

    ghost invariant = { λ s. IsKept s.variables.items (get_by_text s.innermost) };
}

impl Scope {
    /// No variables.
    pub fn new(alloc: Global) -> Scope
        ensures { result ≡ [] }
    {
        Scope {
            variables: Vec::new(alloc),
            innermost: HashMap::new(alloc),
        }
    }

    /// The number of variables. It takes no memory.
    pub fn len(&self) -> usize
        ensures { result ≡ length self.now }
    {
        self.variables.len()
    }

    /// One more variable, the innermost, of this name. It makes one more owner of the name, and a copy of its text. Where memory
    /// is wanting nothing changes.
    pub fn push(&mut self, name: &Symbol) -> Result<(), AllocError>
        requires { length self.old < most_numbered }
        ensures pushed { OnOk result (self.new ≡ self.old ++ Some name.now ∷ []) }
        ensures unchanged { OnErr result (self.new ≡ self.old) }
    {
        let number = VarId(self.len() as u32);
        let key = String::from_str(*self.variables.allocator(), name.as_str())?;
        let name = name.share()?;
        // Room comes first, so that nothing fails behind the change of the map.
        self.variables.reserve(1)?;
        let hidden = self.innermost.insert(key, number)?;
        self.variables.push_reserved(Variable {
            name: Some(name),
            hidden,
        });
        Ok(())
    }

    /// One more variable, the innermost, without a name. Where memory is wanting nothing changes.
    pub fn push_unnamed(&mut self) -> Result<(), AllocError>
        requires { length self.old < most_numbered }
        ensures pushed { OnOk result (self.new ≡ self.old ++ None ∷ []) }
        ensures unchanged { OnErr result (self.new ≡ self.old) }
    {
        self.variables.push(Variable {
            name: None,
            hidden: None,
        })?;
        Ok(())
    }

    /// Leaves the scope of all variables from a number on. It takes time in the number of those, and no memory.
    pub fn cut(&mut self, len: usize)
        ensures { self.new ≡ take len self.old }
    {
        while self.len() > len {
            self.pop();
        }
    }

    /// Leaves the scope of the innermost variable.
    fn pop(&mut self)
        requires { 0 < length self.old }
        ensures { self.new ≡ take (length self.old - 1) self.old }
    {
        if let Some(variable) = self.variables.pop() {
            uncover(&mut self.innermost, variable);
        }
    }

    /// The innermost variable of that name. It takes no memory, and no time in the number of variables.
    pub fn variable(&self, name: &Symbol) -> Option<VarId>
        ensures { option_map (λ v. v.0) result ≡ innermost name.now 0 self.now }
    {
        self.innermost.get(name.as_str()).copied()
    }
}

/// Makes what a variable hides the innermost one of its name again.
fn uncover(innermost: &mut HashMap<String, VarId>, variable: Variable)
    requires { (name : List ℕ) → variable.name ≡ Some name → IsSome (get_by_text innermost.old name) }
    ensures { (name : List ℕ) → get_by_text innermost.new name ≡ (if binds name variable.name then variable.hidden else get_by_text innermost.old name) }
{
    let Variable { name, hidden } = variable;
    if let Some(name) = name {
        put(innermost, name.as_str(), hidden);
    }
}

/// Puts a variable in the place of a name's innermost one, or none. It takes no memory.
fn put(innermost: &mut HashMap<String, VarId>, name: &str, variable: Option<VarId>)
    requires { IsSome (get_by_text innermost.old name.now) }
    ensures { (q : List ℕ) → get_by_text innermost.new q ≡ (if bytes_eq name.now q then variable else get_by_text innermost.old q) }
{
    match variable {
        Some(variable) => {
            if let Some(place) = innermost.get_mut(name) {
                *place = variable;
            }
        }
        None => {
            let _left = innermost.remove(name);
        }
    }
}
