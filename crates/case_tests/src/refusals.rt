// Refusals by their numbers and their names.
use case::Refusal;
use std::test::Fail;

#[test]
fn named(rt: HostRuntime) -> Result<(), Fail> {
    let rows: &[(Refusal, usize, &str)] = &[
        (Refusal::Closed, 31, "closed"),
        (Refusal::Absent, 32, "absent"),
        (Refusal::Tautology, 33, "tautology"),
        (Refusal::Pivot, 34, "pivot"),
        (Refusal::Reduction, 35, "reduction"),
        (Refusal::Level, 36, "level"),
        (Refusal::Asymmetry, 37, "asymmetry"),
        (Refusal::Full, 38, "full"),
    ];
    for (refusal, number, name) in rows {
        assert_eq!(rt; refusal.number(), *number, "{}", name);
        assert_eq!(rt; refusal.to_string(rt.alloc())?.as_str(), *name);
    }
    Ok(())
}
