// Calls that a signal interrupts some times, as often as they are made at most, and once more.
ghost use Rattle.std.specs.Prelude.{◌≡◌, IfOk};

use ace_retry::{Patient, TRIES};
use std::io::{Error, ErrorKind, Read, Result, Write};
use std::test::Fail;

/// A reader and a writer whose calls are interrupted so many times, and then move a byte.
#[derive(Drop)]
struct Disturbed {
    times: u32,
}

impl Disturbed {
    /// Whether the call goes through.
    fn call(&mut self) -> Result<usize>
        ensures { IfOk result (λ moved. moved ≡ 1) }
    {
        if self.times == 0 {
            return Ok(1);
        }
        self.times -= 1;
        Err(Error::from(ErrorKind::Interrupted))
    }
}

impl Read for Disturbed {
    fn read(&mut self, buf: &mut [u8]) -> Result<usize> {
        if buf.is_empty() {
            return Ok(0);
        }
        self.call()
    }
}

impl Write for Disturbed {
    fn write(&mut self, buf: &[u8]) -> Result<usize> {
        if buf.is_empty() {
            return Ok(0);
        }
        self.call()
    }

    fn flush(&mut self) -> Result<()> {
        match self.call() {
            Ok(_count) => Ok(()),
            Err(error) => Err(error),
        }
    }
}

/// Whether each kind of call goes through that is interrupted so many times.
fn go_through(times: u32) -> bool {
    let read = Patient::new(Disturbed { times }).read(&mut [0; 4]).is_ok();
    let written = Patient::new(Disturbed { times }).write(&[1, 2]).is_ok();
    let flushed = Patient::new(Disturbed { times }).flush().is_ok();
    read && written && flushed
}

/// Whether none does.
fn give_up(times: u32) -> bool {
    let read = Patient::new(Disturbed { times }).read(&mut [0; 4]).is_err();
    let written = Patient::new(Disturbed { times }).write(&[1, 2]).is_err();
    let flushed = Patient::new(Disturbed { times }).flush().is_err();
    read && written && flushed
}

#[test]
fn makes_interrupted_calls_again(rt: HostRuntime) -> std::result::Result<(), Fail> {
    assert!(rt; go_through(0) && go_through(1) && go_through(3));
    assert!(rt; go_through(TRIES - 1) && give_up(TRIES));
    Ok(())
}
