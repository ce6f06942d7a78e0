//! Orders of tests.

ghost use Rattle.std.specs.Prelude.{◌≡◌, All, Ok, IfOk, IfErr};
ghost use Rattle.order_law.specs.Conflicts.{Lawful};
ghost use Rattle.selection_close.specs.Faults.{fault_of};
ghost use Rattle.test_run.specs.Running.{IsTest};
ghost use Rattle.electrictest.specs.{Begun.AreCounted, Commands.AnswersOver, Loads.IsSuite, Records.beginning, Running.OrderRefused};
ghost use Rattle.electrictest.specs.declared.words.Command.TheVariants as command;
ghost use Rattle.electrictest.specs.Orders as order;

use crate::asks::Ask;
use crate::begins::begin;
use crate::recorded::Request;
use crate::reports::{Report, order_report};
use crate::running::{run_tests, test_name};
use crate::status::{InputFault, Status};
use dep_graph::Graph;
use et_base::NoMemory;
use jvm_model::Names;
use outside::{Depot, Steps};
use selection_close::{OrderFault, check_order};
use std::alloc::Global;
use std::sync::ledger::Ledger;
use suite_load::Loaded;

// How a fault of an order is answered.
fn input_of(alloc: Global, names: &Names, fault: OrderFault) -> Result<InputFault, NoMemory>
    ensures { IfOk result (λ f. f ≡ order.order_input names.now (fault_of fault)) }
{
    match fault {
        OrderFault::Twice { test } => Ok(InputFault::Twice {
            test: test_name(alloc, names, test)?,
        }),
        OrderFault::MissingWriter { test, writer } => Ok(InputFault::MissingWriter {
            test: test_name(alloc, names, test)?,
            writer: test_name(alloc, names, writer)?,
        }),
        OrderFault::Inverted { first, second } => Ok(InputFault::Inverted {
            first: test_name(alloc, names, first)?,
            second: test_name(alloc, names, second)?,
        }),
    }
}

// That an order is lawful by the record.
fn judged(alloc: Global, loaded: &Loaded, begun: &Request) -> Result<(), Status>
    ensures lawful { IfOk result (λ _. Lawful begun.now.record.edges begun.now.tests) }
    ensures refused { IfErr result (OrderRefused loaded.now (beginning begun.now)) }
{
    let graph = Graph::of(alloc, &begun.record)?;
    match check_order(&graph, begun.tests.as_slice()) {
        Ok(()) => Ok(()),
        Err(fault) => {
            let input = input_of(alloc, &loaded.names, fault)?;
            Err(Status::Input(input))
        }
    }
}

// The report on an order, run on one heap.
fn order_of<L: Ledger>(
    alloc: Global,
    loaded: &Loaded,
    begun: &Request,
    steps: &mut Steps<L>,
) -> Result<Report, Status>
    requires tests { All (IsTest loaded.now.checked) begun.now.tests }
    requires suite { IsSuite loaded.now }
    ensures reports { IfOk result (λ r. let b = beginning begun.now in
        AreCounted (order.IsOrderReport loaded.now b r.passed r.text) steps.old steps.new) }
    ensures refused { IfErr result (OrderRefused loaded.now (beginning begun.now)) }
{
    judged(alloc, loaded, begun)?;
    let outcomes = run_tests(alloc, loaded, begun.tests.as_slice(), steps)?;
    let report = order_report(
        alloc,
        &loaded.names,
        begun.tests.as_slice(),
        outcomes.as_slice(),
    )?;
    Ok(report)
}

/// The report on the order that the words name, by the record that they name.
///
/// `NoTest` comes where a name is of no test; then what the record is refused for; `Twice`, `MissingWriter` and `Inverted` where
/// the order isn't lawful by the record, and `Over` where a test passes its budget.
pub fn order_for<D: Depot, L: Ledger>(
    alloc: Global,
    loaded: &Loaded,
    ask: &Ask<'_>,
    depot: &mut D,
    steps: &mut Steps<L>,
) -> Result<Report, Status>
    requires asks { ask.now.command ≡ Ok command.Order }
    requires suite { IsSuite loaded.now }
    ensures { let depot_now = D.shown depot.new in
        AnswersOver loaded.now ask.now (D.shown depot.old) depot_now steps.old steps.new result }
{
    let begun = begin(alloc, loaded, ask, depot)?;
    order_of(alloc, loaded, &begun, steps)
}
