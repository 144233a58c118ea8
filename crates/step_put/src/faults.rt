ghost use Rattle.std.specs.Prelude.{◌≡◌, ◌++◌, [], IfOk, OnOk};
ghost use Rattle.step_put.specs.Placed.{marks_of_faults, one_if, with_fault};

use label_set::Items;
use std::alloc::{AllocError, Global};
use step_table::{Mark, Marks};
use xfrac::NumFault;

/// Which faults came of the rows of a step.
#[derive(Clone, Copy, Debug)]
pub(crate) struct Faults {
    pub overflow: bool,
    pub irrational: bool,
    pub out_of_calendar: bool,
}

impl Faults {
    pub(crate) fn none() -> Faults
        ensures { marks_of_faults result ≡ [] }
    {
        Faults {
            overflow: false,
            irrational: false,
            out_of_calendar: false,
        }
    }

    pub(crate) fn with(self, fault: NumFault) -> Faults
        ensures { result ≡ with_fault self fault }
    {
        match fault {
            NumFault::Overflow => Faults {
                overflow: true,
                ..self
            },
            NumFault::Irrational => Faults {
                irrational: true,
                ..self
            },
            NumFault::OutOfCalendar => Faults {
                out_of_calendar: true,
                ..self
            },
        }
    }

    /// The marks of the faults; none take no memory. The only error is want of memory.
    pub(crate) fn marks(self, alloc: Global) -> Result<Marks, AllocError>
        ensures { IfOk result (λ marks. marks ≡ record { fatal = marks_of_faults self; notes = [] }) }
    {
        let mut fatal = Items::new(alloc);
        push_if(&mut fatal, self.overflow, Mark::Overflow)?;
        push_if(&mut fatal, self.irrational, Mark::Irrational)?;
        push_if(&mut fatal, self.out_of_calendar, Mark::OutOfCalendar)?;
        Ok(Marks {
            fatal,
            notes: Items::new(alloc),
        })
    }
}

fn push_if(marks: &mut Items<Mark>, wanted: bool, mark: Mark) -> Result<(), AllocError>
    ensures { OnOk result (marks.new ≡ marks.old ++ one_if wanted mark) }
{
    if wanted {
        marks.push(mark)?;
    }
    Ok(())
}
