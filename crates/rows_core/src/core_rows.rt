// The limits with their counts, and quoted lists.
use crate::units::{call_unit, lambda_forms, ones, quote_form, shared_of};
use std::alloc::Global;
use std::process::Abort;
use std::test::Fail;
use t_base::Const;
use t_core::{LimitFault, UnitCore, limits, nodes, weight};

fn check_limits(
    rt: &impl Abort,
    alloc: Global,
    counts: &[u32],
    expected: Result<(), LimitFault>,
) -> Result<(), Fail> {
    assert!(rt; counts.len() < 100);
    let unit = UnitCore {
        shared: shared_of(alloc, Vec::new(alloc), 0)?,
        forms: lambda_forms(rt, alloc, counts)?,
    };
    assert_eq!(rt; limits(&unit), expected);
    Ok(())
}

// A LAMBDA of n parameters around a constant counts n + 2.
#[test]
fn limits_with_counts(rt: HostRuntime) -> Result<(), Fail> {
    check_limits(&rt, rt.alloc(), &[20, 0, 20], Ok(()))?;
    check_limits(
        &rt,
        rt.alloc(),
        &[20, 21, 22],
        Err(LimitFault::Params { form: 1, count: 21 }),
    )?;
    check_limits(
        &rt,
        rt.alloc(),
        &[3, 1999, 2000],
        Err(LimitFault::FormNodes {
            form: 1,
            count: 2001,
        }),
    )?;
    check_limits(
        &rt,
        rt.alloc(),
        &[1998],
        Err(LimitFault::Params {
            form: 0,
            count: 1998,
        }),
    )?;
    check_limits(
        &rt,
        rt.alloc(),
        &[1014, 1014, 1014, 1014],
        Err(LimitFault::Params {
            form: 0,
            count: 1014,
        }),
    )?;
    check_limits(
        &rt,
        rt.alloc(),
        &[1014, 1014, 1014, 1014, 0],
        Err(LimitFault::UnitWeight { count: 4194404 }),
    )?;
    Ok(())
}

fn check_list(rt: &impl Abort, alloc: Global, count: u32, size: u64) -> Result<(), Fail> {
    assert!(rt; count > 0);
    assert!(rt; count < 1000000);
    let shared = shared_of(alloc, ones(alloc, count)?, 0)?;
    let form = quote_form(alloc, Const::Pair(count - 1))?;
    assert_eq!(rt; nodes(&form, &shared), size);
    Ok(())
}

#[test]
fn quoted_lists(rt: HostRuntime) -> Result<(), Fail> {
    check_list(&rt, rt.alloc(), 1, 3)?;
    check_list(&rt, rt.alloc(), 1000, 2001)?;
    check_list(&rt, rt.alloc(), 400000, 800001)?;
    Ok(())
}

fn check_quoted_unit(
    rt: &impl Abort,
    alloc: Global,
    count: u32,
    expected: Result<(), LimitFault>,
) -> Result<(), Fail> {
    assert!(rt; count > 0);
    assert!(rt; count < 1000000);
    let mut forms = Vec::new(alloc);
    forms.push(quote_form(alloc, Const::Pair(count - 1))?)?;
    let unit = UnitCore {
        shared: shared_of(alloc, ones(alloc, count)?, 0)?,
        forms,
    };
    assert_eq!(rt; limits(&unit), expected);
    Ok(())
}

#[test]
fn a_quoted_list_of_a_thousand_is_over(rt: HostRuntime) -> Result<(), Fail> {
    check_quoted_unit(
        &rt,
        rt.alloc(),
        1000,
        Err(LimitFault::FormNodes {
            form: 0,
            count: 2001,
        }),
    )?;
    check_quoted_unit(&rt, rt.alloc(), 999, Ok(()))?;
    Ok(())
}

#[test]
fn a_whole_unit(rt: HostRuntime) -> Result<(), Fail> {
    let unit = call_unit(rt.alloc())?;
    assert_eq!(rt; weight(&unit), 169);
    Ok(())
}
