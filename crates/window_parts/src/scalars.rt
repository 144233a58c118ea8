//! The scalar that a function of windows takes.
ghost use Rattle.exchange.specs.declared.request.Request.{Request};
ghost use Rattle.logical_plan.specs.PlanTypes.{is_window};
ghost use Rattle.logical_plan.specs.declared.nodes.Plan.{Plan};
ghost use Rattle.op_window.specs.Rules.{takes_scalar as reads_scalar};
ghost use Rattle.plan_parts.specs.Parts.{IsBuilt};
ghost use Rattle.promql_meaning.specs.Selecting.{Asked};
ghost use Rattle.promql_type.specs.declared.kind.Kind.{Kind};
ghost use Rattle.std.specs.Prelude.{◌≡◌, true, IfOk, List};
ghost use Rattle.ticks.specs.declared.walk.Walk.{Walk};
ghost use Rattle.window_parts.specs.Over.{IsArgument, IsOfKinds, IsScalarOf};

use func_table::Window;
use plan_parts::kinds::number;
use plan_parts::{Part, Unbuilt};
use plan_work::laws::nodes_add_up;
use std::alloc::Global;
use xfrac::whole;

/// Whether a function of windows takes a scalar.
fn takes_scalar(f: Window) -> bool
    ensures { result ≡ reads_scalar f }
{
    matches!(f, Window::PredictLinear | Window::QuantileOver)
}

/// The part of the scalar that a function of windows takes; where it takes none, a number, which isn't read. It is `Invalid` where
/// there is an argument and the function takes none or the other way round, and where the argument isn't a scalar; else the only error
/// is want of memory.
pub(crate) fn scalar_for(alloc: Global, f: Window, argument: Option<Part>) -> Result<Part, Unbuilt>
    ensures part { IfOk result (λ part. (asked : Asked) (walk : Walk) (before now : List Request) (arguments : List Plan) → IsArgument asked walk before now arguments argument → IsScalarOf asked walk before now f arguments part) }
    ensures total { (given : Kind) (kinds : List Kind) → is_window f given kinds ≡ true → IsOfKinds kinds argument → IsBuilt true result }
{
    nodes_add_up();
    match argument {
        None => {
            if takes_scalar(f) {
                return Err(Unbuilt::Invalid);
            }
            number(alloc, whole(0))
        }
        Some(part) => {
            if !takes_scalar(f) {
                return Err(Unbuilt::Invalid);
            }
            if !part.scalar {
                return Err(Unbuilt::Invalid);
            }
            Ok(part)
        }
    }
}
