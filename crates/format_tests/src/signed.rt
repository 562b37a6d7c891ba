//! Signatures by keys as text.

use signed_messages::{CheckFault, SignatureRefusal, check_signed};
use std::test::Fail;
use test_kit::once_more;

/// An RSA key of 2,048 bits, and one on P-384, as openssl writes them.
const RSA: &[u8] = b"-----BEGIN PUBLIC KEY-----\n\
    MIIBIjANBgkqhkiG9w0BAQEFAAOCAQ8AMIIBCgKCAQEA6qxrQCfk/IMrhm1OAJLA\n\
    O3VVqF6hQ2dEb2rURHwGkMUy6f+Z+VbYJOcjHKx+wcn3XVXPqmG048wli8fHKVlS\n\
    C6hmWOK1VeCxsS8iwVQYZzEK6TTilOKty14Nyb25et6KlVi8ka5tLcCA8ov52tEA\n\
    EeWtB6RgtdHra1I9KW6piS+irHyWBNsph37+xIi31kVGPao5sfZwpYHgIIlZkwWT\n\
    70yq07wPDYfK0dmJ0TUgg2BeBITPiY5sNFERONXMnbD9/rfSG3af1Zl7QXueqwud\n\
    /Bk7ZRYT+5rmKHZNCKSYACWwIEM92lIk4UWnT+esKs0UH3BQ8tqh4zLWyyHz4yDZ\n\
    zQIDAQAB\n\
    -----END PUBLIC KEY-----\n";

const P384: &[u8] = b"-----BEGIN PUBLIC KEY-----\n\
    MHYwEAYHKoZIzj0CAQYFK4EEACIDYgAEpEKFiKSJrDMuiBgUBF2sLMVyRtvVOCFE\n\
    O6x+AigRc0m/X1mulRm+sZOMEju8TLY9C0JWJDcgfcJh4e+O2fsQO2FW4S7Gg3Qt\n\
    OAmaVLWNCBITU/YdS0fn1We2YvzE0B+0\n\
    -----END PUBLIC KEY-----\n";

/// A signature of `abc` by the first, by RSASSA-PSS with SHA-256, as openssl makes it.
const RSA_SIGNATURE: &[u8] =
    b"\x11\xaf\x1b\x82\x9c\x4f\xc8\x6a\x63\x3f\x86\xb9\xd0\x1a\x30\xcb\x52\x5d\xff\xd9\
    \x8f\x57\x8e\x99\xb6\x21\x04\x4e\x66\x60\xfb\xef\x63\xb2\xf5\xdd\x08\x51\x46\x88\
    \xe2\x58\x91\x79\xff\x29\xff\xd9\x03\xe4\x53\x8d\xb4\xce\x57\xd2\xf5\x82\x35\x8b\
    \x2f\xd0\xdc\x2b\x4b\xc1\xfa\x2b\x60\x71\xc4\xae\x3f\x37\x40\xf8\x6f\x47\xd9\x8c\
    \x4b\xca\x24\x52\xd4\xba\xfb\x0c\x3a\x00\x69\x29\x0e\xc6\x17\xff\xae\x32\xd7\x9d\
    \x88\xbe\x50\xe2\x3b\x68\x34\x0f\x60\xf0\x3f\xbf\x0d\x72\x1b\x89\x7d\x79\x2f\x86\
    \xed\x95\x68\x9a\x4a\xd8\xa5\x1c\xd2\xcc\xd1\x64\xbe\xfe\x72\xf6\x8f\x66\xb9\xdf\
    \xa1\xc9\x5b\x68\xf9\x7a\xda\xf1\xdd\xdd\x4a\xb3\xd2\xc5\xd4\xcb\x3a\x87\x7c\xba\
    \xad\xe1\x60\x56\xc5\xc5\xec\x5e\x94\xdc\xb8\x3f\xb7\xf5\x57\x88\x62\x31\xf0\xc7\
    \xcf\xfc\xca\x9f\x04\xba\xbe\x0d\xc1\x3f\x87\x85\xb6\xf6\xce\x7e\xfd\x07\xa5\xa8\
    \x5a\xd1\x3a\xe3\x87\x71\x12\x0e\x1f\x23\xdc\xfd\x15\xcd\xd1\xaf\x75\x7b\xdb\xf0\
    \xcb\x04\xb0\xff\xb3\xfc\xe3\xbd\x87\x87\x89\xbd\x7e\x23\x84\xf8\xb8\x5d\x4e\x14\
    \x24\xcb\x23\x68\x5d\xa0\xef\x56\x40\x15\x9d\x0c\x78\x40\xc3\x97";

/// A key in PEM takes memory, whether its PEM is taken or not. (A public area takes none.)
#[test]
fn each_allocation_refused_in_check_signed(rt: HostRuntime) -> Result<(), Fail> {
    let alloc = rt.alloc();
    let not_signed = CheckFault::Signature(SignatureRefusal::NotSigned);
    let other_pem = CheckFault::Signature(SignatureRefusal::OtherPem);
    for (key, message, answer) in [
        (RSA, b"abc".as_slice(), Ok(())),
        (RSA, b"abd".as_slice(), Err(not_signed)),
        (&RSA[..RSA.len() - 1], b"abc".as_slice(), Err(other_pem)),
        (&P384[..P384.len() - 1], b"abc".as_slice(), Err(other_pem)),
    ] {
        let found = once_more(CheckFault::Memory, || {
            check_signed(alloc, key, message, RSA_SIGNATURE)
        });
        assert_eq!(rt; found, answer);
    }
    Ok(())
}
