//! Lines, and the orders that they make.
use crate::Order;
use crate::cause::Cause;
use fields::fich::DataType;
use fields::settings::Settings;
use std::test::Fail;

fn made(lines: &[&[u8]]) -> Result<Order, Cause> {
    let mut order = Order::new();
    for line in lines {
        order.line(line)?;
    }
    Ok(order)
}

#[test]
fn texts_stand_in_their_fields(rt: HostRuntime) -> Result<(), Fail> {
    let lines: [&[u8]; 9] = [
        b"dest CQ CQ",
        b"src 1234567890",
        b"down a",
        b"down",
        b"up x y ",
        b"rem1 12345",
        b"rem2 b\r",
        b"rem3 ",
        b"rem4 z",
    ];
    let order = made(&lines)?;
    assert!(rt; &order.message[0..20] == b"CQ CQ     1234567890".as_slice());
    assert!(rt; &order.message[20..40] == b"          x y       ".as_slice());
    assert!(rt; &order.message[40..60] == b"12345b         z    ".as_slice());
    assert!(rt; &order.message[60..65] == b"     ".as_slice());
    Ok(())
}

#[test]
fn settings_and_mode_are_read(rt: HostRuntime) -> Result<(), Fail> {
    let lines: [&[u8]; 9] = [
        b"mode voice",
        b"mode data",
        b"cm 3",
        b"dev 1",
        b"mr 002",
        b"voip 1\r",
        b"sql 1",
        b"sc 5",
        b"sc 127",
    ];
    let order = made(&lines)?;
    assert!(rt; order.mode == DataType::DataFr);
    assert!(rt;
        order.settings
            == Settings {
                cm: 3,
                dev: 1,
                mr: 2,
                voip: 1,
                sql: 1,
                sc: 127,
            }
    );
    Ok(())
}

#[test]
fn empty_lines_are_passed_over(rt: HostRuntime) -> Result<(), Fail> {
    let lines: [&[u8]; 2] = [b"", b"\r"];
    assert!(rt; made(&lines)? == Order::new());
    Ok(())
}

#[test]
fn refused_lines_change_nothing(rt: HostRuntime) -> Result<(), Fail> {
    let refused: [(&[u8], Cause); 12] = [
        (b"dst N0CALL", Cause::UnknownKey),
        (b" dest N0CALL", Cause::UnknownKey),
        (b"\xff", Cause::UnknownKey),
        (b"dest 12345678901", Cause::TooLong),
        (b"rem4 123456", Cause::TooLong),
        (b"sc ", Cause::NotANumber),
        (b"sc", Cause::NotANumber),
        (b"sc 1x", Cause::NotANumber),
        (b"sc 128", Cause::OutOfRange),
        (b"sc 99999999999999999999999", Cause::OutOfRange),
        (b"cm 2", Cause::OutOfRange),
        (b"mode vd3", Cause::UnknownMode),
    ];
    let lines: [&[u8]; 4] = [b"dest CQ", b"rem4 z", b"mode vd1", b"sc 12"];
    let before = made(&lines)?;
    for (line, cause) in refused {
        let mut order = before;
        assert_eq!(rt; order.line(line), Err(cause));
        assert!(rt; order == before);
    }
    Ok(())
}

#[test]
fn causes_have_words(rt: HostRuntime) -> Result<(), Fail> {
    assert_eq!(rt; Cause::OutOfRange.text(), "number out of range");
    let cause = Cause::TooLong;
    assert_eq!(rt;
        format!(in rt.alloc(); "{cause}")?.as_str(),
        "value too long"
    );
    Ok(())
}
