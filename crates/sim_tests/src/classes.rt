//! Machines, and texts that are not machines.
use crate::same::same;
use sim_classes::{Machine, MachineFault, read_machine};
use sim_params::Costs;
use std::test::Fail;

// Two classes: 0 between nodes, 1 inside a node.
const CLASSES: &str =
    "classes 2 class 2500 1500 1000 6 0 0 0 65535 class 500 300 200 1 0 0 0 65535 ";

fn machine_of(rt: HostRuntime, rest: &str) -> Result<Machine, Fail> {
    let mut text = String::from_str(rt.alloc(), CLASSES)?;
    text.push_str(rest)?;
    match read_machine(rt.alloc(), text.as_bytes()) {
        Ok(machine) => Ok(machine),
        Err(_) => Err(Fail::from("not expected")),
    }
}

fn fault_of(rt: HostRuntime, rest: &str) -> Result<MachineFault, Fail> {
    let mut text = String::from_str(rt.alloc(), CLASSES)?;
    text.push_str(rest)?;
    match read_machine(rt.alloc(), text.as_bytes()) {
        Ok(_) => Err(Fail::from("not expected")),
        Err(fault) => Ok(fault),
    }
}

#[test]
fn classes_by_the_nodes(rt: HostRuntime) -> Result<(), Fail> {
    let one = machine_of(rt, "inside 1 default 0 ranks 2 0 0 pairs 0")?;
    same(&rt, &one.ranks(), &2);
    same(&rt, &one.class_of(0, 1), &1);
    same(&rt, &one.over(0, 1, 10), &300);
    same(&rt, &one.flight(0, 1, 10), &809);
    assert!(rt; one.uniform().is_none());
    let two = machine_of(rt, "inside 1 default 0 ranks 2 0 1 pairs 0")?;
    same(&rt, &two.class_of(0, 1), &0);
    same(&rt, &two.flight(0, 1, 10), &4_054);
    let told = machine_of(rt, "inside 1 default 0 ranks 2 0 1 pairs 1 0 1 1")?;
    same(&rt, &told.class_of(0, 1), &1);
    same(&rt, &told.class_of(1, 0), &0);
    Ok(())
}

#[test]
fn ranks_past_the_last_and_a_pair_of_one_node(rt: HostRuntime) -> Result<(), Fail> {
    let machine = machine_of(rt, "inside 1 default 0 ranks 2 7 7 pairs 1 7 7 0")?;
    same(&rt, &machine.class_of(0, 1), &1);
    same(&rt, &machine.class_of(1, 2), &0);
    same(&rt, &machine.class_of(9, 3), &0);
    same(&rt, &machine.class_of(9, 9), &1);
    Ok(())
}

#[test]
fn the_first_word_that_fails(rt: HostRuntime) -> Result<(), Fail> {
    let fault = fault_of(rt, "inside 1 default 0 ranks 2 0 0 pairs")?;
    assert!(rt; fault == MachineFault::Syntax { at: 29 });
    let fault = fault_of(rt, "inside 2 default 0 ranks 2 0 0 pairs 0")?;
    assert!(rt; fault == MachineFault::Number { at: 21 });
    let fault = fault_of(rt, "inside 1 default 0 ranks 2 0 0 pairs 2 0 1 1 0 1 0")?;
    assert!(rt; fault == MachineFault::Repeat { at: 34 });
    let fault = fault_of(rt, "inside 1 default 0 ranks 2 0 0 pairs 0 0")?;
    assert!(rt; fault == MachineFault::Syntax { at: 30 });
    let fault = fault_of(rt, "inside 1 default 0 ranks 2 0 65536 pairs 0")?;
    assert!(rt; fault == MachineFault::Number { at: 27 });
    let fault = fault_of(
        rt,
        "inside 1 default 0 ranks 2 0 00000000000000000000000 pairs 0",
    )?;
    assert!(rt; fault == MachineFault::Syntax { at: 27 });
    Ok(())
}

#[test]
fn one_class(rt: HostRuntime) -> Result<(), Fail> {
    let text = "classes 1\tclass 1 2 3 4 5 6 7 8\ninside 0 default 0 ranks 1 0 pairs 0\n";
    match read_machine(rt.alloc(), text.as_bytes()) {
        Ok(machine) => match machine.uniform() {
            Some(params) => same(&rt, &params.overhead_picos, &7),
            None => assert!(rt; false),
        },
        Err(_) => assert!(rt; false),
    }
    Ok(())
}
