ghost use Rattle.std.specs.Prelude.{◌≡◌, ◌++◌, ◌∷◌, ◌≤◌, [], pos, IfOk, OnOk};
ghost use Rattle.fr_value.specs.declared.value.Value.TheVariants as value;
ghost use Rattle.fr_core.specs.Sets.{greatest_time, AreRising};
ghost use Rattle.fr_core.specs.WellFormed.{AreNumbered};
ghost use Rattle.fr_meaning.specs.Afresh.{beginning, first_instant};
ghost use Rattle.fr_sources.specs.Instants.{Advances, AreSourcesAt, Keeps};
ghost use Rattle.fr_sources.specs.Writes.{all_cleared, all_written, with_at, written};

use crate::beginning::{last_source_of, put_firsts, silent};
use crate::writing::{clear_all, is_event, put, write};
use fr_core::{Inputs, Program, Sets};
use fr_value::{Now, SrcId, Value};
use std::alloc::{AllocError, Global};
use std::mem::swap;

/// The values of a program's sources at an instant, by their numbers. To go on to the next instant takes time for what is
/// set at the two instants, however many sources there are.
#[derive(Drop)]
pub struct Sources {
    values: Vec<Now>,
    /// The events that occur.
    occurring: Vec<SrcId>,
    /// The sources that the last step to an instant may have changed.
    touched: Vec<SrcId>,
}

const NOW: SrcId = SrcId(0);

/// The time of an instant, as `now` has it.
fn time_value(time: u64) -> Value
    requires { time ≤ greatest_time }
    ensures { result ≡ value.Int (pos time) }
{
    Value::Int(time as i64)
}

impl Sources {
    /// The sources of a program at the first instant, of time 0, at which each input has its first value and no event occurs.
    /// It fails where a program has more than 4,294,967,294 inputs and events, and where there is no memory.
    pub fn first(alloc: Global, program: &Program) -> Result<Sources, AllocError>
        requires { AreNumbered program.now }
        ensures { IfOk result (λ s. AreSourcesAt program.now (beginning program.now).values first_instant s) }
    {
        let mut values = silent(alloc, last_source_of(program)?)?;
        put_firsts(&mut values, program.inputs.as_slice())?;
        put(&mut values, NOW, Now::Plain(time_value(0)));
        Ok(Sources {
            values,
            occurring: Vec::new(alloc),
            touched: Vec::new(alloc),
        })
    }

    /// Makes the events that occur occur no longer. They are those that were touched now.
    fn settle(&mut self)
        ensures values { self.new.values.items ≡ all_cleared self.old.occurring.items self.old.values.items }
        ensures occurring { self.new.occurring.items ≡ [] }
        ensures touched { self.new.touched.items ≡ self.old.occurring.items }
    {
        swap(&mut self.occurring, &mut self.touched);
        self.occurring.clear();
        clear_all(&mut self.values, &self.touched);
    }

    /// Writes what a source is set to, and notes that it was touched. A number of no source is passed over. It fails only
    /// where there is no memory.
    fn set(&mut self, source: SrcId, value: Value) -> Result<(), AllocError>
        ensures values { OnOk result (self.new.values.items ≡ with_at (written value) source.0 self.old.values.items) }
        ensures keeps { OnOk result (Keeps self.old self.new) }
    {
        if source.0 as usize >= self.values.len() {
            return Ok(());
        }
        self.touched.push(source)?;
        if is_event(&self.values, source) {
            self.occurring.push(source)?;
        }
        write(&mut self.values, source, value);
        Ok(())
    }

    /// Writes all that is set. It fails only where there is no memory.
    fn set_all(&mut self, sets: &Sets) -> Result<(), AllocError>
        ensures rising { AreRising sets.now }
        ensures values { OnOk result (self.new.values.items ≡ all_written sets.now self.old.values.items) }
        ensures keeps { OnOk result (Keeps self.old self.new) }
    {
        for i in 0..sets.len() {
            if let Some(source) = sets.source_at(i) {
                if let Some(value) = sets.value_of(source) {
                    self.set(source, value.share()?)?;
                }
            }
        }
        Ok(())
    }

    /// Goes on to the next instant. What is set for a number of no source is passed over. It fails only where there is no
    /// memory, and then the values are those of no instant.
    pub fn advance(&mut self, inputs: &Inputs) -> Result<(), AllocError>
        requires { inputs.now.time ≤ greatest_time }
        ensures { OnOk result (Advances inputs.now self.old self.new) }
    {
        self.settle();
        self.set_all(&inputs.sets)?;
        self.touched.push(NOW)?;
        put(&mut self.values, NOW, Now::Plain(time_value(inputs.time)));
        Ok(())
    }

    /// The values, by the numbers of the sources.
    pub fn values(&self) -> &[Now]
        ensures { result.now ≡ self.now.values.items }
    {
        self.values.as_slice()
    }

    /// The numbers of the sources that the last step to an instant may have changed, each once or more: `now`, the events
    /// that occurred before it, and the sources that were set. At the first instant there are none.
    pub fn touched(&self) -> &[SrcId]
        ensures { result.now ≡ self.now.touched.items }
    {
        self.touched.as_slice()
    }
}
