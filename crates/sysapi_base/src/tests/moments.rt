use crate::{END, Moment};
use std::str;
use std::test::Fail;

#[test]
fn moments_have_their_text(rt: HostRuntime) -> Result<(), Fail> {
    for (millis, text) in [
        (0, "1970-01-01T00:00:00.000Z"),
        (946_684_800_000, "2000-01-01T00:00:00.000Z"),
        (951_782_400_000, "2000-02-29T00:00:00.000Z"),
        (4_107_542_399_999, "2100-02-28T23:59:59.999Z"),
        (4_107_542_400_000, "2100-03-01T00:00:00.000Z"),
        (END - 1, "9999-12-31T23:59:59.999Z"),
    ] {
        let moment = Moment::from_millis(millis).ok_or("the moment is in range")?;
        assert_eq!(rt; str::from_utf8(&moment.text())?, text);
    }
    assert_eq!(rt; Moment::from_millis(END), None);
    Ok(())
}
