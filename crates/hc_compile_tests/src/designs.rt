use hc_compile::{Plan, compile_all};
use hc_dbstate::DbState;
use hc_elab::elab_one;
use hc_lang::parse;
use std::alloc::Global;
use std::process::Abort;
use std::test::Fail;

/// How many parts the plan of the top has, and how many steps; none where there is a fault or no plan.
fn sizes<R: Abort>(rt: &R, alloc: Global, text: &str) -> Option<(usize, usize)> {
    let bytes = text.as_bytes();
    assert!(rt; bytes.len() <= 4_194_304);
    let mut db = DbState::new(alloc);
    let Ok(design) = parse(alloc, bytes) else {
        return None;
    };
    let Ok(hier) = elab_one(alloc, &design, &mut db) else {
        return None;
    };
    let top = hier.entry;
    assert!(rt; top.0 < db.len());
    match compile_all(alloc, &db, top) {
        Err(_) => None,
        Ok(plans) => match plans.get(top.0) {
            None => None,
            Some(plan) => Some((plan.parts().len(), steps(plan))),
        },
    }
}

/// How many steps a plan has.
fn steps(plan: &Plan) -> usize {
    let mut count: usize = 0;
    for part in plan.parts() {
        count = count.saturating_add(part.steps().len());
    }
    count
}

#[test]
fn crossings(rt: HostRuntime) -> Result<(), Fail> {
    // an output of the instance leads to another input of it
    let text =
        "circuit c\ninput i 1\ninput j 1\noutput o 1\noutput p 1\nassign o not(i)\nassign p not(j)\n\
        circuit t\ninput x 1\noutput y 1\nwire w 1\ninst u c : i=x j=w\nassign w u.o\nassign y u.p\ntop t\n";
    assert!(rt; sizes(&rt, rt.alloc(), text) == Some((1, 8)));
    Ok(())
}

#[test]
fn levels(rt: HostRuntime) -> Result<(), Fail> {
    let text = "circuit inv\ninput a 1\noutput y 1\nassign y not(a)\n\
        circuit twice\ninput a 1\noutput y 1\ninst p inv : a=a\ninst q inv : a=p.y\nassign y q.y\n\
        top twice\n";
    assert!(rt; sizes(&rt, rt.alloc(), text) == Some((1, 7)));
    Ok(())
}
