// The usual challengers by name: their domains with their orders.

use domain::{
    BABY_BEAR_ORDER, BYTES_ORDER, BabyBear, Bytes, GOLDILOCKS_ORDER, Goldilocks, KOALA_BEAR_ORDER,
    KoalaBear,
};
use duplex_challenger::DuplexChallenger;
use hash_challenger::HashChallenger;
use hashers::Hasher;
use multi_field_challenger::MultiField32Challenger;
use serializing_challenger::SerializingChallenger32;

/// A duplex challenger over bytes.
pub type BytesDuplex<P> = DuplexChallenger<Bytes, P, BYTES_ORDER>;

/// A duplex challenger over BabyBear.
pub type BabyBearDuplex<P> = DuplexChallenger<BabyBear, P, BABY_BEAR_ORDER>;

/// A duplex challenger over KoalaBear.
pub type KoalaBearDuplex<P> = DuplexChallenger<KoalaBear, P, KOALA_BEAR_ORDER>;

/// A duplex challenger over Goldilocks.
pub type GoldilocksDuplex<P> = DuplexChallenger<Goldilocks, P, GOLDILOCKS_ORDER>;

/// A multi-field challenger that samples in BabyBear, over a sponge of Goldilocks.
pub type BabyBearInGoldilocks<P> = MultiField32Challenger<
    BabyBear,
    Goldilocks,
    P,
    BABY_BEAR_ORDER,
    GOLDILOCKS_ORDER,
>;

/// A hash challenger over a hasher chosen by its value.
pub type ByteHash = HashChallenger<Hasher, 32>;

/// Codes of BabyBear over a hash challenger.
pub type BabyBearHash = SerializingChallenger32<BabyBear, ByteHash, BABY_BEAR_ORDER>;

/// Codes of KoalaBear over a hash challenger.
pub type KoalaBearHash = SerializingChallenger32<KoalaBear, ByteHash, KOALA_BEAR_ORDER>;
