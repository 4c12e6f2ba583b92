//! What threads share and send of a text and of what is made of it.
use hc_body::kinds::Body;
use hc_fault::{Fault, Ident, ItemList, Name, Path};
use hc_lang::{BenchLine, CircuitText, Design, Head, TopLine};
use hc_lines::{BenchWhat, Stmt};
use hc_sigtext::Sig;
use hc_statements::kinds::{Call, Child};
use hc_tokens::Num;
use std::test::Fail;

fn is_shared<T: Sync + Send>() {}

#[test]
fn names_and_faults_are_shared(_rt: HostRuntime) -> Result<(), Fail> {
    is_shared::<Name>();
    is_shared::<Ident>();
    is_shared::<Path>();
    is_shared::<Fault>();
    is_shared::<ItemList<Name>>();
    Ok(())
}

#[test]
fn lines_are_shared(_rt: HostRuntime) -> Result<(), Fail> {
    is_shared::<Num>();
    is_shared::<Head>();
    is_shared::<TopLine>();
    is_shared::<BenchWhat>();
    is_shared::<BenchLine>();
    Ok(())
}

#[test]
fn signals_are_shared(_rt: HostRuntime) -> Result<(), Fail> {
    is_shared::<Sig>();
    Ok(())
}

#[test]
fn statements_are_shared(_rt: HostRuntime) -> Result<(), Fail> {
    is_shared::<Stmt>();
    Ok(())
}

#[test]
fn designs_are_shared(_rt: HostRuntime) -> Result<(), Fail> {
    is_shared::<CircuitText>();
    is_shared::<Design>();
    Ok(())
}

#[test]
fn calls_and_bodies_are_shared(_rt: HostRuntime) -> Result<(), Fail> {
    is_shared::<Call>();
    is_shared::<Child>();
    is_shared::<Body>();
    Ok(())
}
