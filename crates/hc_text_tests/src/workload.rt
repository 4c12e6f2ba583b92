use hc_lang::parse;
use hc_workload::{digest_of, generate};
use std::test::Fail;

#[test]
fn digest_of_three_bytes(rt: HostRuntime) -> Result<(), Fail> {
    assert_eq!(rt; digest_of(b"abc"), 96_354);
    Ok(())
}

#[test]
fn workloads_of_seeds(rt: HostRuntime) -> Result<(), Fail> {
    let alloc = rt.alloc();
    let seeds: [(u64, usize, u64); 3] = [
        (0, 11_205, 1_988_194_000_791_559_170),
        (1, 11_215, 3_121_533_055_071_804_226),
        (u64::MAX, 11_203, 2_995_373_558_996_721_601),
    ];
    for (seed, length, digest) in seeds {
        let text = generate(alloc, seed)?;
        assert_eq!(rt; text.len(), length);
        assert_eq!(rt; digest_of(&text), digest);
    }
    Ok(())
}

#[test]
fn a_workload_is_a_design(rt: HostRuntime) -> Result<(), Fail> {
    let alloc = rt.alloc();
    let text = generate(alloc, 1)?;
    assert!(rt; text.len() <= 4_194_304);
    let design = parse(alloc, &text)?;
    assert_eq!(rt; design.circuits.as_slice().len(), 40);
    Ok(())
}
