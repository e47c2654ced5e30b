// The names of the three ordered lists, in compiled order (document 01: Three ordered lists). Proved: the table is
// the lists of specs/Names.antt, and `name_of` answers every kind and place. Assumed: nothing.
#![tactic(auto)]

ghost use Rattle.std.specs.Prelude.{◌≡◌, [], ◌+◌, ◌<◌, ◌≤◌, ltb, get_or};
ghost use Rattle.base.specs.If.{when◌then◌else◌};
ghost use Rattle.base.specs.Answer.{refused, gives};
ghost use Rattle.names.specs.Names.{all_names, all_named};
ghost use Rattle.names.specs.Naming.{packed, packed_names, naming, says_name};

use edition::{Edition, Kind, Place};

// How many names each list has, and all of them.
pub const BOOLEANS: usize = 37;

pub const NUMBERS: usize = 16;

pub const STRINGS: usize = 158;

pub const ALL: usize = BOOLEANS + NUMBERS + STRINGS;

// The editions that have a name: the first, and the second, which counts all names.
pub const FIRST_EDITION: Edition = Edition {
    booleans: 21,
    numbers: 8,
    strings: 138,
};

pub const SECOND_EDITION: Edition = Edition {
    booleans: BOOLEANS,
    numbers: NUMBERS,
    strings: STRINGS,
};

// All names, each as a number whose bytes, low byte first, are the name's.
const NAMES: [u64; ALL] = [
    // booleans
    30562, // bw
    28001, // am
    6452088, // xsb
    7366776, // xhp
    1819174264, // xenl
    28517, // eo
    28263, // gn
    25448, // hc
    28011, // km
    29544, // hs
    28265, // in
    24932, // da
    25188, // db
    7498093, // mir
    1919382381, // msgr
    29551, // os
    461430879077, // eslok
    29816, // xt
    31336, // hz
    27765, // ul
    7237496, // xon
    1852799086, // nxon
    1765106541, // mc5i
    1937008739, // chts
    427037979246, // nrrmc
    6516846, // npc
    491294778478, // ndscr
    6513507, // ccc
    6644578, // bce
    7564392, // hls
    1634756728, // xhpa
    1836610147, // crxm
    521627328868, // daisy
    1634760312, // xvpa
    7168371, // sam
    2020175971, // cpix
    2020175980, // lpix
    // numbers
    1936486243, // cols
    29801, // it
    495622973804, // lines
    28012, // lm
    6516088, // xmc
    25200, // pb
    29814, // vt
    7107447, // wsl
    1650551918, // nlab
    26732, // lh
    30572, // lw
    24941, // ma
    1836412535, // wnum
    126935332843363, // colors
    495840747888, // pairs
    7758702, // ncv
    // strings
    7627363, // cbt
    7103842, // bel
    29283, // cr
    7500643, // csr
    6513268, // tbc
    491260308579, // clear
    27749, // el
    25701, // ed
    6385768, // hpa
    448344124771, // cmdch
    7370083, // cup
    828667235, // cud1
    1701670760, // home
    495690606947, // civis
    828536163, // cub1
    483005788781, // mrcup
    470071340643, // cnorm
    828798307, // cuf1
    27756, // ll
    829781347, // cuu1
    495690610275, // cvvis
    828924772, // dch1
    3239012, // dl1
    7107428, // dsl
    25704, // hd
    495588568435, // smacs
    461413903458, // blink
    1684828002, // bold
    483005787507, // smcup
    1667526003, // smdc
    7170404, // dim
    1919511923, // smir
    495690608233, // invis
    1953460848, // prot
    7759218, // rev
    1869835635, // smso
    1819635059, // smul
    6841189, // ech
    495588568434, // rmacs
    812803955, // sgr0
    483005787506, // rmcup
    1667526002, // rmdc
    1919511922, // rmir
    1869835634, // rmso
    1819635058, // rmul
    448612363366, // flash
    26214, // ff
    7107430, // fsl
    3240809, // is1
    3306345, // is2
    3371881, // is3
    26217, // if
    828924777, // ich1
    3239017, // il1
    28777, // ip
    7561835, // kbs
    1667396715, // ktbc
    1919705963, // kclr
    422541812587, // kctab
    212204741739, // kdch1
    829187179, // kdl1
    212138812267, // kcud1
    491395052139, // krmir
    7103851, // kel
    6579563, // ked
    3171947, // kf0
    3237483, // kf1
    808543851, // kf10
    3303019, // kf2
    3368555, // kf3
    3434091, // kf4
    3499627, // kf5
    3565163, // kf6
    3630699, // kf7
    3696235, // kf8
    3761771, // kf9
    435627714667, // khome
    212204743019, // kich1
    829188459, // kil1
    212105257835, // kcub1
    7105643, // kll
    7368299, // knp
    7368811, // kpp
    212172366699, // kcuf1
    1684957547, // kind
    6910571, // kri
    1937008747, // khts
    212424024939, // kcuu1
    2020306290, // rmkx
    2020306291, // smkx
    3171948, // lf0
    3237484, // lf1
    808543852, // lf10
    3303020, // lf2
    3368556, // lf3
    3434092, // lf4
    3499628, // lf5
    3565164, // lf6
    3630700, // lf7
    3696236, // lf8
    3761772, // lf9
    7171442, // rmm
    7171443, // smm
    7103854, // nel
    6578544, // pad
    6841188, // dch
    27748, // dl
    6583651, // cud
    6841193, // ich
    1852075625, // indn
    27753, // il
    6452579, // cub
    6714723, // cuf
    7235954, // rin
    7697763, // cuu
    521392580208, // pfkey
    427071137392, // pfloc
    7890544, // pfx
    3171181, // mc0
    3433325, // mc4
    3498861, // mc5
    7366002, // rep
    3240818, // rs1
    3306354, // rs2
    3371890, // rs3
    26226, // rf
    25458, // rc
    6385782, // vpa
    25459, // sc
    6581865, // ind
    26994, // ri
    7497587, // sgr
    7566440, // hts
    1684957559, // wind
    29800, // ht
    7107444, // tsl
    25461, // uc
    30056, // hu
    444251402345, // iprog
    3236203, // ka1
    3367275, // ka3
    3301995, // kb2
    3236715, // kc1
    3367787, // kc3
    1882547053, // mc5p
    7368050, // rmp
    1668506465, // acsc
    7236720, // pln
    1952605035, // kcbt
    474316565875, // smxon
    474316565874, // rmxon
    1835101555, // smam
    1835101554, // rmam
    1668181880, // xonc
    426919751544, // xoffc
    495588568677, // enacs
    1852599667, // smln
    1852599666, // rmln
];

// What a name is looked up as. A name that the edition doesn't know is `None`.
#[derive(Clone, Copy)]
pub enum Found {
    Boolean(Place),
    Number(Place),
    String(Place),
}

fn packed_name(k: usize) -> u64
    requires { k < all_named }
    ensures { result ≡ get_or packed_names k 0 }
{
    NAMES[k]
}

// The name at a place of the list of count names that starts at first among all names; none (17) beyond the list.
fn name_in(first: usize, count: usize, place: Place) -> Option<u64>
    requires { first + count ≤ all_named }
    ensures { says_name result ≡ (when ltb place.0 count then gives (packed (get_or all_names (first + place.0) []))
        else refused 17 []) }
{
    if count <= place.0 {
        return None;
    }
    Some(packed_name(first + place.0))
}

// The name of the capability at a place of a list, as the number whose bytes, low byte first, are the name's.
pub fn name_of(kind: Kind, place: Place) -> Option<u64>
    ensures { says_name result ≡ naming kind place }
{
    match kind {
        Kind::Boolean => name_in(0, BOOLEANS, place),
        Kind::Number => name_in(BOOLEANS, NUMBERS, place),
        Kind::String => name_in(BOOLEANS + NUMBERS, STRINGS, place),
    }
}
