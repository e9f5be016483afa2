use formats::EglError;
use gl_calls::{Call, LimitName, Reply};
use gl_errors::{Decision, decide};
use gl_model::GroupState;
use std::test::Fail;

#[test]
fn a_new_group_refuses_what_needs_a_context(rt: HostRuntime) -> Result<(), Fail> {
    let group = GroupState::new(rt.alloc(), &[0])?;
    let refused = decide(&group, 0, &Call::Flush);
    assert!(rt; matches!(refused, Decision::Refused(Reply::NoContext)));
    let refused = decide(
        &group,
        0,
        &Call::GetInteger {
            limit: LimitName::Other,
        },
    );
    assert!(rt; matches!(refused, Decision::Refused(Reply::NoContext)));
    let refused = decide(&group, 0, &Call::CreateSync { number: 1 });
    assert!(rt;
        matches!(
            refused,
            Decision::Refused(Reply::EglFault(EglError::BadMatch))
        )
    );
    let accepted = decide(&group, 0, &Call::CreateContext { number: 1 });
    assert!(rt; matches!(accepted, Decision::Accepted));
    Ok(())
}
