//! Chains of references.

ghost use Rattle.std.specs.Prelude.{◌≡◌, ◌<◌, ◌+◌, ◌-◌, ◌^◌, OnOk};
ghost use Rattle.use_chain.specs.Chains.{node_count};

use std::alloc::AllocError;
use std::test::Fail;
use t_base::Var;
use use_chain::Web;

/// Adds nodes at which no reference stands.
fn add_nodes(web: &mut Web<u64>, count: u32) -> Result<(), AllocError>
    requires { node_count web.old + count < 2 ^ 32 - 1 }
    ensures nodes { OnOk result (node_count web.new ≡ node_count web.old + count) }
    ensures chains { OnOk result (web.new.chains ≡ web.old.chains) }
    ensures spare { OnOk result (web.new.spare ≡ web.old.spare) }
{
    'nodes: for _ in 0..count {
        let Ok(_) = web.add_node(0) else {
            return Err(AllocError);
        };
    }
    Ok(())
}

#[test]
fn a_chain_without_its_second_reference_goes_to_another_variable(
    rt: HostRuntime,
) -> Result<(), Fail> {
    let mut web = Web::new(rt.alloc());
    web.reserve_vars(2)?;
    web.reserve(3)?;
    add_nodes(&mut web, 5)?;
    let Ok(first) = web.add_node(0) else {
        return Err(Fail::from(AllocError));
    };
    web.add_ref(Var(0), first, 0);
    let Ok(second) = web.add_node(0) else {
        return Err(Fail::from(AllocError));
    };
    let cut = web.add_ref(Var(0), second, 0);
    let Ok(third) = web.add_node(0) else {
        return Err(Fail::from(AllocError));
    };
    web.cut_ref(cut);
    web.add_ref(Var(0), third, 0);
    web.replace_var(Var(0), Var(1));
    assert_eq!(rt; (first, second, third), (5, 6, 7));
    let mut references = Vec::new(rt.alloc());
    for reference in web.chain_of(Var(1)) {
        references.push(reference)?;
    }
    assert_eq!(rt; references.as_slice(), [(5, 0), (7, 0)].as_slice());
    assert!(rt; web.first_of(Var(0)).is_none());
    Ok(())
}
