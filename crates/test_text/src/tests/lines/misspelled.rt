//! Lines that spell no request.

/// Words, spaces and line ends that are out of place, unknown names, bytes that are no ASCII.
pub const SHAPES: [&[u8]; 65] = [
    b"",
    b" ",
    b"?",
    b"? ",
    b"1",
    b"1 1",
    b"1 1 ",
    b" 1 1 rotate",
    b"1 1 rotate ",
    b"1  1 rotate",
    b"1 1  rotate",
    b"1 1 price  5",
    b"1 1 price 5 ",
    b"? pools ",
    b" ? pools",
    b"?  pools",
    b"?pools",
    b"?? pools",
    b"? ? pools",
    b"1 ? pools",
    b"? 1 pools",
    b"pools",
    b"rotate",
    b"1 rotate",
    b"1 price 5",
    b"1\t1 rotate",
    b"\t1 1 rotate",
    b"1 1 rotate\t",
    b"1 1 price 5\t",
    b"? pools\t",
    b"?\tpools",
    b"1\r1 rotate",
    b"1 1 rotate\r",
    b"1 1 price 5\r",
    b"? pools\r",
    b"\r",
    b"\n",
    b"1 1 rotate\n",
    b"1 1 price 5\n",
    b"? pools\n",
    b"? pools\n? pools",
    b"1\n1 rotate",
    b"1\01 rotate",
    b"1 1 rotate\0",
    b"1 1 price 5\0",
    b"? pools\0",
    b"# comment",
    b"// 1 1 rotate",
    b"1,1,rotate",
    b"1 1 rotate # all",
    b"1 1 unknown 1",
    b"? unknown",
    b"1 1 liquidate_ 1 1",
    b"1 1 liquidate-lowest 1 1",
    b"1 1 gain_to 1 - -",
    b"1 1 gain-to-trove 1 - -",
    b"? next-number 1",
    b"? next 1",
    b"1 1 price \xef\xbc\x91",
    b"1 \xef\xbc\x91 rotate",
    b"1 1 price 5\xff",
    b"\xef\xbb\xbf1 1 rotate",
    b"1 1 rotat\xe9",
    b"1\xa01 rotate",
    b"\xff",
];

/// Each verb with a word too many, with words too few, misspelled, and as a query.
pub const VERBS: &str = "\
    1 1 price 12 1\n\
    1 1 price\n\
    1 1 pric 12\n\
    1 1 prices 12\n\
    1 1 PRICE 12\n\
    ? price 12\n\
    1 1 advance 12 1\n\
    1 1 advance\n\
    1 1 advanc 12\n\
    1 1 advances 12\n\
    1 1 ADVANCE 12\n\
    ? advance 12\n\
    1 1 fund 7 12 1\n\
    1 1 fund 7\n\
    1 1 fund\n\
    1 1 fun 7 12\n\
    1 1 funds 7 12\n\
    1 1 FUND 7 12\n\
    ? fund 7 12\n\
    1 1 take 7 12 1\n\
    1 1 take 7\n\
    1 1 take\n\
    1 1 tak 7 12\n\
    1 1 takes 7 12\n\
    1 1 TAKE 7 12\n\
    ? take 7 12\n\
    1 1 send 7 7 12 1\n\
    1 1 send 7 7\n\
    1 1 send\n\
    1 1 sen 7 7 12\n\
    1 1 sends 7 7 12\n\
    1 1 SEND 7 7 12\n\
    ? send 7 7 12\n\
    1 1 open 7 12 12 12 - - 1\n\
    1 1 open 7 12 12 12 -\n\
    1 1 open\n\
    1 1 ope 7 12 12 12 - -\n\
    1 1 opens 7 12 12 12 - -\n\
    1 1 OPEN 7 12 12 12 - -\n\
    ? open 7 12 12 12 - -\n\
    1 1 adjust 7 12 12 12 12 12 - - 1\n\
    1 1 adjust 7 12 12 12 12 12 -\n\
    1 1 adjust\n\
    1 1 adjus 7 12 12 12 12 12 - -\n\
    1 1 adjusts 7 12 12 12 12 12 - -\n\
    1 1 ADJUST 7 12 12 12 12 12 - -\n\
    ? adjust 7 12 12 12 12 12 - -\n\
    1 1 close 7 1\n\
    1 1 close\n\
    1 1 clos 7\n\
    1 1 closes 7\n\
    1 1 CLOSE 7\n\
    ? close 7\n\
    1 1 provide 7 12 1\n\
    1 1 provide 7\n\
    1 1 provide\n\
    1 1 provid 7 12\n\
    1 1 provides 7 12\n\
    1 1 PROVIDE 7 12\n\
    ? provide 7 12\n\
    1 1 withdraw 7 12 1\n\
    1 1 withdraw 7\n\
    1 1 withdraw\n\
    1 1 withdra 7 12\n\
    1 1 withdraws 7 12\n\
    1 1 WITHDRAW 7 12\n\
    ? withdraw 7 12\n\
    1 1 gain_to_trove 7 - - 1\n\
    1 1 gain_to_trove 7 -\n\
    1 1 gain_to_trove\n\
    1 1 gain_to_trov 7 - -\n\
    1 1 gain_to_troves 7 - -\n\
    1 1 GAIN_TO_TROVE 7 - -\n\
    ? gain_to_trove 7 - -\n\
    1 1 liquidate 7 7 1\n\
    1 1 liquidate 7\n\
    1 1 liquidate\n\
    1 1 liquidat 7 7\n\
    1 1 liquidates 7 7\n\
    1 1 LIQUIDATE 7 7\n\
    ? liquidate 7 7\n\
    1 1 liquidate_lowest 7 12 1\n\
    1 1 liquidate_lowest 7\n\
    1 1 liquidate_lowest\n\
    1 1 liquidate_lowes 7 12\n\
    1 1 liquidate_lowests 7 12\n\
    1 1 LIQUIDATE_LOWEST 7 12\n\
    ? liquidate_lowest 7 12\n\
    1 1 redeem 7 12 12 - - 1\n\
    1 1 redeem 7 12 12 -\n\
    1 1 redeem\n\
    1 1 redee 7 12 12 - -\n\
    1 1 redeems 7 12 12 - -\n\
    1 1 REDEEM 7 12 12 - -\n\
    ? redeem 7 12 12 - -\n\
    1 1 claim 7 1\n\
    1 1 claim\n\
    1 1 clai 7\n\
    1 1 claims 7\n\
    1 1 CLAIM 7\n\
    ? claim 7\n\
    1 1 rotate 1\n\
    1 1 rotat\n\
    1 1 rotates\n\
    1 1 ROTATE\n\
    ? rotate";

/// Each word behind a verb past its range, with a leading zero, and as no number.
pub const WORDS: &str = "\
    1 1 price 18446744073709551616\n\
    1 1 price 012\n\
    1 1 price -\n\
    1 1 advance 18446744073709551616\n\
    1 1 advance 012\n\
    1 1 advance -\n\
    1 1 fund 4294967296 12\n\
    1 1 fund 07 12\n\
    1 1 fund - 12\n\
    1 1 fund 7 18446744073709551616\n\
    1 1 fund 7 012\n\
    1 1 fund 7 -\n\
    1 1 take 4294967296 12\n\
    1 1 take 07 12\n\
    1 1 take - 12\n\
    1 1 take 7 18446744073709551616\n\
    1 1 take 7 012\n\
    1 1 take 7 -\n\
    1 1 send 4294967296 7 12\n\
    1 1 send 07 7 12\n\
    1 1 send - 7 12\n\
    1 1 send 7 4294967296 12\n\
    1 1 send 7 07 12\n\
    1 1 send 7 - 12\n\
    1 1 send 7 7 18446744073709551616\n\
    1 1 send 7 7 012\n\
    1 1 send 7 7 -\n\
    1 1 open 4294967296 12 12 12 - -\n\
    1 1 open 07 12 12 12 - -\n\
    1 1 open - 12 12 12 - -\n\
    1 1 open 7 18446744073709551616 12 12 - -\n\
    1 1 open 7 012 12 12 - -\n\
    1 1 open 7 - 12 12 - -\n\
    1 1 open 7 12 18446744073709551616 12 - -\n\
    1 1 open 7 12 012 12 - -\n\
    1 1 open 7 12 - 12 - -\n\
    1 1 open 7 12 12 18446744073709551616 - -\n\
    1 1 open 7 12 12 012 - -\n\
    1 1 open 7 12 12 - - -\n\
    1 1 open 7 12 12 12 4294967296 -\n\
    1 1 open 7 12 12 12 07 -\n\
    1 1 open 7 12 12 12 -- -\n\
    1 1 open 7 12 12 12  -\n\
    1 1 open 7 12 12 12 - 4294967296\n\
    1 1 open 7 12 12 12 - 07\n\
    1 1 open 7 12 12 12 - --\n\
    1 1 open 7 12 12 12 - \n\
    1 1 adjust 4294967296 12 12 12 12 12 - -\n\
    1 1 adjust 07 12 12 12 12 12 - -\n\
    1 1 adjust - 12 12 12 12 12 - -\n\
    1 1 adjust 7 18446744073709551616 12 12 12 12 - -\n\
    1 1 adjust 7 012 12 12 12 12 - -\n\
    1 1 adjust 7 - 12 12 12 12 - -\n\
    1 1 adjust 7 12 18446744073709551616 12 12 12 - -\n\
    1 1 adjust 7 12 012 12 12 12 - -\n\
    1 1 adjust 7 12 - 12 12 12 - -\n\
    1 1 adjust 7 12 12 18446744073709551616 12 12 - -\n\
    1 1 adjust 7 12 12 012 12 12 - -\n\
    1 1 adjust 7 12 12 - 12 12 - -\n\
    1 1 adjust 7 12 12 12 18446744073709551616 12 - -\n\
    1 1 adjust 7 12 12 12 012 12 - -\n\
    1 1 adjust 7 12 12 12 - 12 - -\n\
    1 1 adjust 7 12 12 12 12 18446744073709551616 - -\n\
    1 1 adjust 7 12 12 12 12 012 - -\n\
    1 1 adjust 7 12 12 12 12 - - -\n\
    1 1 adjust 7 12 12 12 12 12 4294967296 -\n\
    1 1 adjust 7 12 12 12 12 12 07 -\n\
    1 1 adjust 7 12 12 12 12 12 -- -\n\
    1 1 adjust 7 12 12 12 12 12  -\n\
    1 1 adjust 7 12 12 12 12 12 - 4294967296\n\
    1 1 adjust 7 12 12 12 12 12 - 07\n\
    1 1 adjust 7 12 12 12 12 12 - --\n\
    1 1 adjust 7 12 12 12 12 12 - \n\
    1 1 close 4294967296\n\
    1 1 close 07\n\
    1 1 close -\n\
    1 1 provide 4294967296 12\n\
    1 1 provide 07 12\n\
    1 1 provide - 12\n\
    1 1 provide 7 18446744073709551616\n\
    1 1 provide 7 012\n\
    1 1 provide 7 -\n\
    1 1 withdraw 4294967296 12\n\
    1 1 withdraw 07 12\n\
    1 1 withdraw - 12\n\
    1 1 withdraw 7 18446744073709551616\n\
    1 1 withdraw 7 012\n\
    1 1 withdraw 7 -\n\
    1 1 gain_to_trove 4294967296 - -\n\
    1 1 gain_to_trove 07 - -\n\
    1 1 gain_to_trove - - -\n\
    1 1 gain_to_trove 7 4294967296 -\n\
    1 1 gain_to_trove 7 07 -\n\
    1 1 gain_to_trove 7 -- -\n\
    1 1 gain_to_trove 7  -\n\
    1 1 gain_to_trove 7 - 4294967296\n\
    1 1 gain_to_trove 7 - 07\n\
    1 1 gain_to_trove 7 - --\n\
    1 1 gain_to_trove 7 - \n\
    1 1 liquidate 4294967296 7\n\
    1 1 liquidate 07 7\n\
    1 1 liquidate - 7\n\
    1 1 liquidate 7 4294967296\n\
    1 1 liquidate 7 07\n\
    1 1 liquidate 7 -\n\
    1 1 liquidate_lowest 4294967296 12\n\
    1 1 liquidate_lowest 07 12\n\
    1 1 liquidate_lowest - 12\n\
    1 1 liquidate_lowest 7 18446744073709551616\n\
    1 1 liquidate_lowest 7 012\n\
    1 1 liquidate_lowest 7 -\n\
    1 1 redeem 4294967296 12 12 - -\n\
    1 1 redeem 07 12 12 - -\n\
    1 1 redeem - 12 12 - -\n\
    1 1 redeem 7 18446744073709551616 12 - -\n\
    1 1 redeem 7 012 12 - -\n\
    1 1 redeem 7 - 12 - -\n\
    1 1 redeem 7 12 18446744073709551616 - -\n\
    1 1 redeem 7 12 012 - -\n\
    1 1 redeem 7 12 - - -\n\
    1 1 redeem 7 12 12 4294967296 -\n\
    1 1 redeem 7 12 12 07 -\n\
    1 1 redeem 7 12 12 -- -\n\
    1 1 redeem 7 12 12  -\n\
    1 1 redeem 7 12 12 - 4294967296\n\
    1 1 redeem 7 12 12 - 07\n\
    1 1 redeem 7 12 12 - --\n\
    1 1 redeem 7 12 12 - \n\
    1 1 claim 4294967296\n\
    1 1 claim 07\n\
    1 1 claim -";

/// Each query in these ways.
pub const QUERIES: &str = "\
    ? wallet 7 1\n\
    ? wallet\n\
    ? wallet 4294967296\n\
    ? wallet 007\n\
    ? wallet -\n\
    ? walle 7\n\
    ? wallets 7\n\
    ? WALLET 7\n\
    1 1 wallet 7\n\
    ? trove 7 1\n\
    ? trove\n\
    ? trove 4294967296\n\
    ? trove 007\n\
    ? trove -\n\
    ? trov 7\n\
    ? troves 7\n\
    ? TROVE 7\n\
    1 1 trove 7\n\
    ? deposit 7 1\n\
    ? deposit\n\
    ? deposit 4294967296\n\
    ? deposit 007\n\
    ? deposit -\n\
    ? deposi 7\n\
    ? deposits 7\n\
    ? DEPOSIT 7\n\
    1 1 deposit 7\n\
    ? pools 1\n\
    ? pool\n\
    ? poolss\n\
    ? POOLS\n\
    1 1 pools\n\
    ? system 1\n\
    ? syste\n\
    ? systems\n\
    ? SYSTEM\n\
    1 1 system\n\
    ? next_number 7 1\n\
    ? next_number\n\
    ? next_number 4294967296\n\
    ? next_number 007\n\
    ? next_number -\n\
    ? next_numbe 7\n\
    ? next_numbers 7\n\
    ? NEXT_NUMBER 7\n\
    1 1 next_number 7";

/// Numbers, clients and prices that are written in other ways.
pub const NUMBERS: &str = "\
    1 1 price 00\n\
    1 00 rotate\n\
    00 1 rotate\n\
    1 1 price 01\n\
    1 01 rotate\n\
    01 1 rotate\n\
    1 1 price +0\n\
    1 +0 rotate\n\
    +0 1 rotate\n\
    1 1 price -0\n\
    1 -0 rotate\n\
    -0 1 rotate\n\
    1 1 price +1\n\
    1 +1 rotate\n\
    +1 1 rotate\n\
    1 1 price -1\n\
    1 -1 rotate\n\
    -1 1 rotate\n\
    1 1 price 1.\n\
    1 1. rotate\n\
    1. 1 rotate\n\
    1 1 price 1.0\n\
    1 1.0 rotate\n\
    1.0 1 rotate\n\
    1 1 price 1e18\n\
    1 1e18 rotate\n\
    1e18 1 rotate\n\
    1 1 price 0x10\n\
    1 0x10 rotate\n\
    0x10 1 rotate\n\
    1 1 price 0b1\n\
    1 0b1 rotate\n\
    0b1 1 rotate\n\
    1 1 price 1_0\n\
    1 1_0 rotate\n\
    1_0 1 rotate\n\
    1 1 price 1,000\n\
    1 1,000 rotate\n\
    1,000 1 rotate\n\
    1 18446744073709551616 rotate\n\
    1 1 price 100000000000000000000\n\
    1 100000000000000000000 rotate\n\
    100000000000000000000 1 rotate\n\
    1 1 price 9999999999999999999999999999999999999999\n\
    1 9999999999999999999999999999999999999999 rotate\n\
    9999999999999999999999999999999999999999 1 rotate\n\
    1 1 price 0000000000000000000000000000000000000000000000000000000000001\n\
    1 0000000000000000000000000000000000000000000000000000000000001 rotate\n\
    0000000000000000000000000000000000000000000000000000000000001 1 rotate\n\
    1 1 price 1a\n\
    1 1a rotate\n\
    1a 1 rotate\n\
    1 1 price a1\n\
    1 a1 rotate\n\
    a1 1 rotate\n\
    1 1 price \n\
    1  rotate\n\
    \x201 rotate\n\
    4294967296 1 rotate\n\
    18446744073709551615 1 rotate\n\
    - 1 rotate\n\
    c1 1 rotate";

/// Long lines: of 200 bytes, and of more. They stand here in parts of 80 bytes.
pub const LONG: &str = "\
    1 1 price 0000000000000000000000000000000000000000000000000000000000000000000000\
        00000000000000000000000000000000000000000000000000000000000000000000000000000000\
        00000000000000000000000000000000000000005\n\
    1 1 price 1111111111111111111111111111111111111111111111111111111111111111111111\
        11111111111111111111111111111111111111111111111111111111111111111111111111111111\
        1111111111111111111111111111111111111111\n\
    1 1 price 1111111111111111111111111111111111111111111111111111111111111111111111\
        11111111111111111111111111111111111111111111111111111111111111111111111111111111\
        11111111111111111111111111111111111111111\n\
    ? pools                                                                         \
        \x20                                                                               \
        \x20                                       \n\
    ? pools                                                                         \
        \x20                                                                               \
        \x20                                        \n\
    xxxxxxxxxxxxxxxxxxxxxxxxxxxxxxxxxxxxxxxxxxxxxxxxxxxxxxxxxxxxxxxxxxxxxxxxxxxxxxxx\
        xxxxxxxxxxxxxxxxxxxxxxxxxxxxxxxxxxxxxxxxxxxxxxxxxxxxxxxxxxxxxxxxxxxxxxxxxxxxxxxx\
        xxxxxxxxxxxxxxxxxxxxxxxxxxxxxxxxxxxxxxxx\n\
    xxxxxxxxxxxxxxxxxxxxxxxxxxxxxxxxxxxxxxxxxxxxxxxxxxxxxxxxxxxxxxxxxxxxxxxxxxxxxxxx\
        xxxxxxxxxxxxxxxxxxxxxxxxxxxxxxxxxxxxxxxxxxxxxxxxxxxxxxxxxxxxxxxxxxxxxxxxxxxxxxxx\
        xxxxxxxxxxxxxxxxxxxxxxxxxxxxxxxxxxxxxxxxx\n\
    1 1 rotate                                                                      \
        \x20                                                                               \
        \x20                                        \n\
    1 1 adjust 1 1 1 1 1 1 - -                                                      \
        \x20                                                                               \
        \x20                                        ";

/// Lines that spell no session and request.
pub const IN_SESSIONS: &str = "\
    0 ? pools\n\
    9 ? pools\n\
    10 ? pools\n\
    01 ? pools\n\
    +1 ? pools\n\
    -1 ? pools\n\
    1\n\
    1 \n\
    \n\
    1  ? pools\n\
    \x201 ? pools\n\
    1 ? pools \n\
    ? pools\n\
    a ? pools\n\
    - ? pools\n\
    1 x\n\
    1 1 price 5\n\
    1? pools\n\
    1\t? pools\n\
    1 1 1 price 5 5\n\
    1 1 ? pools\n\
    18446744073709551617 ? pools\n\
    1 ? pools\r\n\
    1 xxxxxxxxxxxxxxxxxxxxxxxxxxxxxxxxxxxxxxxxxxxxxxxxxxxxxxxxxxxxxxxxxxxxxxxxxxxxxx\
        xxxxxxxxxxxxxxxxxxxxxxxxxxxxxxxxxxxxxxxxxxxxxxxxxxxxxxxxxxxxxxxxxxxxxxxxxxxxxxxx\
        xxxxxxxxxxxxxxxxxxxxxxxxxxxxxxxxxxxxxxxx\n\
    1 xxxxxxxxxxxxxxxxxxxxxxxxxxxxxxxxxxxxxxxxxxxxxxxxxxxxxxxxxxxxxxxxxxxxxxxxxxxxxx\
        xxxxxxxxxxxxxxxxxxxxxxxxxxxxxxxxxxxxxxxxxxxxxxxxxxxxxxxxxxxxxxxxxxxxxxxxxxxxxxxx\
        xxxxxxxxxxxxxxxxxxxxxxxxxxxxxxxxxxxxxxxxx\n\
    1 ? pools                                                                       \
        \x20                                                                               \
        \x20                                        ";
