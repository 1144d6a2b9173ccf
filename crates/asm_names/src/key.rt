ghost use Rattle.std.specs.Prelude.{◌≡◌};
ghost use Rattle.asm_names.specs.KeyToken.{key_token};

use sha1::Sha1;

/// The token of a public key: the last eight bytes of its SHA-1 digest, the last one first (ECMA-335 II.6.3). Takes no
/// memory.
pub fn public_key_token(key: &[u8]) -> [u8; 8]
    ensures { result ≡ key_token key.now }
{
    let digest = Sha1::digest(key);
    let mut token = [0; 8];
    token.copy_from_slice(&digest[12..]);
    token.reverse();
    token
}
