//! Sources that are not UTF-8.

use pyc_lex::LexFault;

pub(super) const CASES: &[(&[u8], LexFault)] = &[
    (b"\x80", LexFault::NotUtf8),
    (b"x\xbf", LexFault::NotUtf8),
    (b"\xc3", LexFault::NotUtf8),
    (b"\xc3(", LexFault::NotUtf8),
    (b"\xe2\x82", LexFault::NotUtf8),
    (b"\xe2(\xa1", LexFault::NotUtf8),
    (b"\xf0\x9f\x98", LexFault::NotUtf8),
    (b"\xf0\x9f(\x80", LexFault::NotUtf8),
    (b"\xff", LexFault::NotUtf8),
    (b"\xfe\xff", LexFault::NotUtf8),
    (b"\xff\xfex\0", LexFault::NotUtf8),
    // overlong forms
    (b"\xc0\x80", LexFault::NotUtf8),
    (b"\xc1\xbf", LexFault::NotUtf8),
    (b"\xe0\x80\x80", LexFault::NotUtf8),
    (b"\xe0\x9f\xbf", LexFault::NotUtf8),
    (b"\xf0\x80\x80\x80", LexFault::NotUtf8),
    (b"\xf0\x8f\xbf\xbf", LexFault::NotUtf8),
    (b"\xc0\xaf", LexFault::NotUtf8),
    // surrogates
    (b"\xed\xa0\x80", LexFault::NotUtf8),
    (b"\xed\xbf\xbf", LexFault::NotUtf8),
    (b"\xed\xa0\xbd\xed\xb8\x80", LexFault::NotUtf8),
    // past the last character
    (b"\xf4\x90\x80\x80", LexFault::NotUtf8),
    (b"\xf5\x80\x80\x80", LexFault::NotUtf8),
    (b"\xf8\x88\x80\x80\x80", LexFault::NotUtf8),
    (b"\xfc\x84\x80\x80\x80\x80", LexFault::NotUtf8),
    // in a string, in a comment, after every other fault, after the mark
    (b"'\xe9'", LexFault::NotUtf8),
    (b"# \xe9\n", LexFault::NotUtf8),
    (b"# -*- coding: latin-1 -*-\nx = '\xe9'", LexFault::NotUtf8),
    (b"$\n'a\n(\n)]\n  \x80", LexFault::NotUtf8),
    (b"\xef\xbb\xbf\xff", LexFault::NotUtf8),
    (b"\xef\xbb", LexFault::NotUtf8),
];
