// The lines of a header.
ghost use Rattle.std.specs.Prelude.{◌≡◌, ◌<◌, ◌≤◌, ◌+◌, ◌++◌, length, codes};
ghost use Rattle.ace_event.specs.Ports.{IsHeader, port_letter, port_letters};
ghost use Rattle.ace_event.specs.Text.{version_text, line_text, header_text};

use crate::text_buf::TextBuf;
use ace_event::{Header, PortKind, kind_of};

/// The letter of a port.
fn letter_of(header: &Header, port: u8) -> u8
    requires { port < header.now.ports }
    ensures { result ≡ port_letter header.now.ace port }
{
    match kind_of(header, port) {
        Some(PortKind::Ace) => b'A',
        _ => b'L',
    }
}

impl TextBuf {
    /// The first header line.
    fn push_version(&mut self, version: u8)
        requires room { length self.old + 6 ≤ 4096 }
        ensures value { self.new ≡ self.old ++ line_text (version_text version) }
        ensures len { length self.new ≡ length self.old + 6 }
    {
        if version == 1 {
            self.append(b"ACE 1\n");
        } else {
            self.append(b"ACE 2\n");
        }
    }

    /// The second header line.
    pub fn push_ports(&mut self, header: &Header)
        requires header { IsHeader header.now }
        requires room { length self.old + 39 ≤ 4096 }
        ensures value { self.new ≡ self.old ++ line_text (codes "PORTS "
            ++ port_letters header.now) }
        ensures len { length self.new ≤ length self.old + 39 }
    {
        self.append(b"PORTS ");
        for port in 0..header.ports {
            self.push(letter_of(header, port));
        }
        self.push(b'\n');
    }

    /// The two header lines.
    pub(crate) fn push_header(&mut self, header: &Header)
        requires header { IsHeader header.now }
        requires room { length self.old + 45 ≤ 4096 }
        ensures { self.new ≡ self.old ++ header_text header.now }
    {
        self.push_version(header.version);
        self.push_ports(header);
    }
}
