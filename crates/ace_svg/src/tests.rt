// Elements as they are written.
use crate::{Point, Size, push_line, push_rectangle, push_title, push_words};

#[test]
fn writes_elements(rt: HostRuntime) {
    let mut text = Vec::new(rt.alloc());
    let at = Point { x: 3, y: 40 };
    let to = Point { x: 500, y: 0 };
    let size = Size {
        width: 7,
        height: 21,
    };
    let told = push_line(&mut text, b"address", at, to).is_ok()
        && push_rectangle(&mut text, b"grant", at, size).is_ok()
        && push_words(&mut text, b"port", at, b"a<b>&\"c\"~\n\xc3\xa9").is_ok()
        && push_title(&mut text, b"port 0 & 1").is_ok();
    assert!(rt; told);
    assert!(rt;
        text.as_slice()
            == b"<line class=\"address\" x1=\"3\" y1=\"40\" x2=\"500\" y2=\"0\"/>\n\
<rect class=\"grant\" x=\"3\" y=\"40\" width=\"7\" height=\"21\"/>\n\
<text class=\"port\" x=\"3\" y=\"40\">a&lt;b&gt;&amp;&quot;c&quot;~???</text>\n\
<title>port 0 &amp; 1</title>\n"
                .as_slice()
    );
}
