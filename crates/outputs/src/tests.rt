// Examples at the edges; codes and readings are tried on real stores by the crate that has them.
use crate::number::Number;
use crate::output::Output;
use crate::text::Text;
use std::test::Fail;

#[test]
fn texts_up_to_24_bytes_are_taken(rt: HostRuntime) -> Result<(), Fail> {
    assert!(rt; Text::new(b"").is_ok());
    assert!(rt; Text::new(b"DAM-2 NORTH GALLERY P017").is_ok());
    match Text::new(b"DAM-2 NORTH GALLERY P0017") {
        Ok(_) => Err(Fail::new("25 bytes are taken")),
        Err(refusal) => {
            assert_eq!(rt; refusal.number(), 1);
            Ok(())
        },
    }
}

#[test]
fn numbers_join_up_to_32_bits(rt: HostRuntime) {
    let most = Number {
        value: 4_294_967_295,
    };
    let one = Number { value: 1 };
    assert!(rt; !most.joins(&one));
    assert_eq!(rt; most.join(&one), Number::empty());
    assert_eq!(rt; most.rest(&one).join(&one), most);
    assert_eq!(rt; most.common(&one), one);
}

#[test]
fn texts_share_a_prefix_and_leave_a_rest(rt: HostRuntime) -> Result<(), Fail> {
    let Ok(toe) = Text::new(b"toe") else {
        return Err(Fail::new("toe"))
    };
    let Ok(top) = Text::new(b"top") else {
        return Err(Fail::new("top"))
    };
    let shared = toe.common(&top);
    assert!(rt; shared.as_bytes() == b"to".as_slice());
    assert!(rt; top.rest(&shared).as_bytes() == b"p".as_slice());
    assert!(rt; shared.rest(&top).as_bytes() == b"".as_slice());
    assert!(rt; shared.join(&top.rest(&shared)).same(&top));
    Ok(())
}
