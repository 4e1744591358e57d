// The rows are printed by tools/c_values_table, which has a C compiler compute them.

/// An operator, a type and a left operand, and the answers for all right operands.
pub const OPERATORS: &str = "\
Add Bool 0: 0 1
Add Bool 1: 1 0
Add Char -128: overflow overflow overflow -128 -127 -2 -1
Add Char -127: overflow overflow -128 -127 -126 -1 0
Add Char -1: overflow -128 -2 -1 0 125 126
Add Char 0: -128 -127 -1 0 1 126 127
Add Char 1: -127 -126 0 1 2 127 overflow
Add Char 126: -2 -1 125 126 127 overflow overflow
Add Char 127: -1 0 126 127 overflow overflow overflow
Add SChar -128: overflow overflow overflow -128 -127 -2 -1
Add SChar -127: overflow overflow -128 -127 -126 -1 0
Add SChar -1: overflow -128 -2 -1 0 125 126
Add SChar 0: -128 -127 -1 0 1 126 127
Add SChar 1: -127 -126 0 1 2 127 overflow
Add SChar 126: -2 -1 125 126 127 overflow overflow
Add SChar 127: -1 0 126 127 overflow overflow overflow
Add UChar 0: 0 1 254 255
Add UChar 1: 1 2 255 0
Add UChar 254: 254 255 252 253
Add UChar 255: 255 0 253 254
Add Short -32768: overflow overflow overflow -32768 -32767 -2 -1
Add Short -32767: overflow overflow -32768 -32767 -32766 -1 0
Add Short -1: overflow -32768 -2 -1 0 32765 32766
Add Short 0: -32768 -32767 -1 0 1 32766 32767
Add Short 1: -32767 -32766 0 1 2 32767 overflow
Add Short 32766: -2 -1 32765 32766 32767 overflow overflow
Add Short 32767: -1 0 32766 32767 overflow overflow overflow
Add UShort 0: 0 1 65534 65535
Add UShort 1: 1 2 65535 0
Add UShort 65534: 65534 65535 65532 65533
Add UShort 65535: 65535 0 65533 65534
Add Int -2147483648: overflow overflow overflow -2147483648 -2147483647 -2 -1
Add Int -2147483647: overflow overflow -2147483648 -2147483647 -2147483646 -1 0
Add Int -1: overflow -2147483648 -2 -1 0 2147483645 2147483646
Add Int 0: -2147483648 -2147483647 -1 0 1 2147483646 2147483647
Add Int 1: -2147483647 -2147483646 0 1 2 2147483647 overflow
Add Int 2147483646: -2 -1 2147483645 2147483646 2147483647 overflow overflow
Add Int 2147483647: -1 0 2147483646 2147483647 overflow overflow overflow
Add UInt 0: 0 1 4294967294 4294967295
Add UInt 1: 1 2 4294967295 0
Add UInt 4294967294: 4294967294 4294967295 4294967292 4294967293
Add UInt 4294967295: 4294967295 0 4294967293 4294967294
Add Long -2147483648: overflow overflow overflow -2147483648 -2147483647 -2 -1
Add Long -2147483647: overflow overflow -2147483648 -2147483647 -2147483646 -1 0
Add Long -1: overflow -2147483648 -2 -1 0 2147483645 2147483646
Add Long 0: -2147483648 -2147483647 -1 0 1 2147483646 2147483647
Add Long 1: -2147483647 -2147483646 0 1 2 2147483647 overflow
Add Long 2147483646: -2 -1 2147483645 2147483646 2147483647 overflow overflow
Add Long 2147483647: -1 0 2147483646 2147483647 overflow overflow overflow
Add ULong 0: 0 1 4294967294 4294967295
Add ULong 1: 1 2 4294967295 0
Add ULong 4294967294: 4294967294 4294967295 4294967292 4294967293
Add ULong 4294967295: 4294967295 0 4294967293 4294967294
Add LongLong -9223372036854775808: overflow overflow overflow -9223372036854775808 -9223372036854775807 -2 -1
Add LongLong -9223372036854775807: overflow overflow -9223372036854775808 -9223372036854775807 -9223372036854775806 -1 0
Add LongLong -1: overflow -9223372036854775808 -2 -1 0 9223372036854775805 9223372036854775806
Add LongLong 0: -9223372036854775808 -9223372036854775807 -1 0 1 9223372036854775806 9223372036854775807
Add LongLong 1: -9223372036854775807 -9223372036854775806 0 1 2 9223372036854775807 overflow
Add LongLong 9223372036854775806: -2 -1 9223372036854775805 9223372036854775806 9223372036854775807 overflow overflow
Add LongLong 9223372036854775807: -1 0 9223372036854775806 9223372036854775807 overflow overflow overflow
Add ULongLong 0: 0 1 18446744073709551614 18446744073709551615
Add ULongLong 1: 1 2 18446744073709551615 0
Add ULongLong 18446744073709551614: 18446744073709551614 18446744073709551615 18446744073709551612 18446744073709551613
Add ULongLong 18446744073709551615: 18446744073709551615 0 18446744073709551613 18446744073709551614
Sub Bool 0: 0 1
Sub Bool 1: 1 0
Sub Char -128: 0 -1 -127 -128 overflow overflow overflow
Sub Char -127: 1 0 -126 -127 -128 overflow overflow
Sub Char -1: 127 126 0 -1 -2 -127 -128
Sub Char 0: overflow 127 1 0 -1 -126 -127
Sub Char 1: overflow overflow 2 1 0 -125 -126
Sub Char 126: overflow overflow 127 126 125 0 -1
Sub Char 127: overflow overflow overflow 127 126 1 0
Sub SChar -128: 0 -1 -127 -128 overflow overflow overflow
Sub SChar -127: 1 0 -126 -127 -128 overflow overflow
Sub SChar -1: 127 126 0 -1 -2 -127 -128
Sub SChar 0: overflow 127 1 0 -1 -126 -127
Sub SChar 1: overflow overflow 2 1 0 -125 -126
Sub SChar 126: overflow overflow 127 126 125 0 -1
Sub SChar 127: overflow overflow overflow 127 126 1 0
Sub UChar 0: 0 255 2 1
Sub UChar 1: 1 0 3 2
Sub UChar 254: 254 253 0 255
Sub UChar 255: 255 254 1 0
Sub Short -32768: 0 -1 -32767 -32768 overflow overflow overflow
Sub Short -32767: 1 0 -32766 -32767 -32768 overflow overflow
Sub Short -1: 32767 32766 0 -1 -2 -32767 -32768
Sub Short 0: overflow 32767 1 0 -1 -32766 -32767
Sub Short 1: overflow overflow 2 1 0 -32765 -32766
Sub Short 32766: overflow overflow 32767 32766 32765 0 -1
Sub Short 32767: overflow overflow overflow 32767 32766 1 0
Sub UShort 0: 0 65535 2 1
Sub UShort 1: 1 0 3 2
Sub UShort 65534: 65534 65533 0 65535
Sub UShort 65535: 65535 65534 1 0
Sub Int -2147483648: 0 -1 -2147483647 -2147483648 overflow overflow overflow
Sub Int -2147483647: 1 0 -2147483646 -2147483647 -2147483648 overflow overflow
Sub Int -1: 2147483647 2147483646 0 -1 -2 -2147483647 -2147483648
Sub Int 0: overflow 2147483647 1 0 -1 -2147483646 -2147483647
Sub Int 1: overflow overflow 2 1 0 -2147483645 -2147483646
Sub Int 2147483646: overflow overflow 2147483647 2147483646 2147483645 0 -1
Sub Int 2147483647: overflow overflow overflow 2147483647 2147483646 1 0
Sub UInt 0: 0 4294967295 2 1
Sub UInt 1: 1 0 3 2
Sub UInt 4294967294: 4294967294 4294967293 0 4294967295
Sub UInt 4294967295: 4294967295 4294967294 1 0
Sub Long -2147483648: 0 -1 -2147483647 -2147483648 overflow overflow overflow
Sub Long -2147483647: 1 0 -2147483646 -2147483647 -2147483648 overflow overflow
Sub Long -1: 2147483647 2147483646 0 -1 -2 -2147483647 -2147483648
Sub Long 0: overflow 2147483647 1 0 -1 -2147483646 -2147483647
Sub Long 1: overflow overflow 2 1 0 -2147483645 -2147483646
Sub Long 2147483646: overflow overflow 2147483647 2147483646 2147483645 0 -1
Sub Long 2147483647: overflow overflow overflow 2147483647 2147483646 1 0
Sub ULong 0: 0 4294967295 2 1
Sub ULong 1: 1 0 3 2
Sub ULong 4294967294: 4294967294 4294967293 0 4294967295
Sub ULong 4294967295: 4294967295 4294967294 1 0
Sub LongLong -9223372036854775808: 0 -1 -9223372036854775807 -9223372036854775808 overflow overflow overflow
Sub LongLong -9223372036854775807: 1 0 -9223372036854775806 -9223372036854775807 -9223372036854775808 overflow overflow
Sub LongLong -1: 9223372036854775807 9223372036854775806 0 -1 -2 -9223372036854775807 -9223372036854775808
Sub LongLong 0: overflow 9223372036854775807 1 0 -1 -9223372036854775806 -9223372036854775807
Sub LongLong 1: overflow overflow 2 1 0 -9223372036854775805 -9223372036854775806
Sub LongLong 9223372036854775806: overflow overflow 9223372036854775807 9223372036854775806 9223372036854775805 0 -1
Sub LongLong 9223372036854775807: overflow overflow overflow 9223372036854775807 9223372036854775806 1 0
Sub ULongLong 0: 0 18446744073709551615 2 1
Sub ULongLong 1: 1 0 3 2
Sub ULongLong 18446744073709551614: 18446744073709551614 18446744073709551613 0 18446744073709551615
Sub ULongLong 18446744073709551615: 18446744073709551615 18446744073709551614 1 0
Mul Bool 0: 0 0
Mul Bool 1: 0 1
Mul Char -128: overflow overflow overflow 0 -128 overflow overflow
Mul Char -127: overflow overflow 127 0 -127 overflow overflow
Mul Char -1: overflow 127 1 0 -1 -126 -127
Mul Char 0: 0 0 0 0 0 0 0
Mul Char 1: -128 -127 -1 0 1 126 127
Mul Char 126: overflow overflow -126 0 126 overflow overflow
Mul Char 127: overflow overflow -127 0 127 overflow overflow
Mul SChar -128: overflow overflow overflow 0 -128 overflow overflow
Mul SChar -127: overflow overflow 127 0 -127 overflow overflow
Mul SChar -1: overflow 127 1 0 -1 -126 -127
Mul SChar 0: 0 0 0 0 0 0 0
Mul SChar 1: -128 -127 -1 0 1 126 127
Mul SChar 126: overflow overflow -126 0 126 overflow overflow
Mul SChar 127: overflow overflow -127 0 127 overflow overflow
Mul UChar 0: 0 0 0 0
Mul UChar 1: 0 1 254 255
Mul UChar 254: 0 254 4 2
Mul UChar 255: 0 255 2 1
Mul Short -32768: overflow overflow overflow 0 -32768 overflow overflow
Mul Short -32767: overflow overflow 32767 0 -32767 overflow overflow
Mul Short -1: overflow 32767 1 0 -1 -32766 -32767
Mul Short 0: 0 0 0 0 0 0 0
Mul Short 1: -32768 -32767 -1 0 1 32766 32767
Mul Short 32766: overflow overflow -32766 0 32766 overflow overflow
Mul Short 32767: overflow overflow -32767 0 32767 overflow overflow
Mul UShort 0: 0 0 0 0
Mul UShort 1: 0 1 65534 65535
Mul UShort 65534: 0 65534 4 2
Mul UShort 65535: 0 65535 2 1
Mul Int -2147483648: overflow overflow overflow 0 -2147483648 overflow overflow
Mul Int -2147483647: overflow overflow 2147483647 0 -2147483647 overflow overflow
Mul Int -1: overflow 2147483647 1 0 -1 -2147483646 -2147483647
Mul Int 0: 0 0 0 0 0 0 0
Mul Int 1: -2147483648 -2147483647 -1 0 1 2147483646 2147483647
Mul Int 2147483646: overflow overflow -2147483646 0 2147483646 overflow overflow
Mul Int 2147483647: overflow overflow -2147483647 0 2147483647 overflow overflow
Mul UInt 0: 0 0 0 0
Mul UInt 1: 0 1 4294967294 4294967295
Mul UInt 4294967294: 0 4294967294 4 2
Mul UInt 4294967295: 0 4294967295 2 1
Mul Long -2147483648: overflow overflow overflow 0 -2147483648 overflow overflow
Mul Long -2147483647: overflow overflow 2147483647 0 -2147483647 overflow overflow
Mul Long -1: overflow 2147483647 1 0 -1 -2147483646 -2147483647
Mul Long 0: 0 0 0 0 0 0 0
Mul Long 1: -2147483648 -2147483647 -1 0 1 2147483646 2147483647
Mul Long 2147483646: overflow overflow -2147483646 0 2147483646 overflow overflow
Mul Long 2147483647: overflow overflow -2147483647 0 2147483647 overflow overflow
Mul ULong 0: 0 0 0 0
Mul ULong 1: 0 1 4294967294 4294967295
Mul ULong 4294967294: 0 4294967294 4 2
Mul ULong 4294967295: 0 4294967295 2 1
Mul LongLong -9223372036854775808: overflow overflow overflow 0 -9223372036854775808 overflow overflow
Mul LongLong -9223372036854775807: overflow overflow 9223372036854775807 0 -9223372036854775807 overflow overflow
Mul LongLong -1: overflow 9223372036854775807 1 0 -1 -9223372036854775806 -9223372036854775807
Mul LongLong 0: 0 0 0 0 0 0 0
Mul LongLong 1: -9223372036854775808 -9223372036854775807 -1 0 1 9223372036854775806 9223372036854775807
Mul LongLong 9223372036854775806: overflow overflow -9223372036854775806 0 9223372036854775806 overflow overflow
Mul LongLong 9223372036854775807: overflow overflow -9223372036854775807 0 9223372036854775807 overflow overflow
Mul ULongLong 0: 0 0 0 0
Mul ULongLong 1: 0 1 18446744073709551614 18446744073709551615
Mul ULongLong 18446744073709551614: 0 18446744073709551614 4 2
Mul ULongLong 18446744073709551615: 0 18446744073709551615 2 1
Div Bool 0: zero 0
Div Bool 1: zero 1
Div Char -128: 1 1 overflow zero -128 -1 -1
Div Char -127: 0 1 127 zero -127 -1 -1
Div Char -1: 0 0 1 zero -1 0 0
Div Char 0: 0 0 0 zero 0 0 0
Div Char 1: 0 0 -1 zero 1 0 0
Div Char 126: 0 0 -126 zero 126 1 0
Div Char 127: 0 -1 -127 zero 127 1 1
Div SChar -128: 1 1 overflow zero -128 -1 -1
Div SChar -127: 0 1 127 zero -127 -1 -1
Div SChar -1: 0 0 1 zero -1 0 0
Div SChar 0: 0 0 0 zero 0 0 0
Div SChar 1: 0 0 -1 zero 1 0 0
Div SChar 126: 0 0 -126 zero 126 1 0
Div SChar 127: 0 -1 -127 zero 127 1 1
Div UChar 0: zero 0 0 0
Div UChar 1: zero 1 0 0
Div UChar 254: zero 254 1 0
Div UChar 255: zero 255 1 1
Div Short -32768: 1 1 overflow zero -32768 -1 -1
Div Short -32767: 0 1 32767 zero -32767 -1 -1
Div Short -1: 0 0 1 zero -1 0 0
Div Short 0: 0 0 0 zero 0 0 0
Div Short 1: 0 0 -1 zero 1 0 0
Div Short 32766: 0 0 -32766 zero 32766 1 0
Div Short 32767: 0 -1 -32767 zero 32767 1 1
Div UShort 0: zero 0 0 0
Div UShort 1: zero 1 0 0
Div UShort 65534: zero 65534 1 0
Div UShort 65535: zero 65535 1 1
Div Int -2147483648: 1 1 overflow zero -2147483648 -1 -1
Div Int -2147483647: 0 1 2147483647 zero -2147483647 -1 -1
Div Int -1: 0 0 1 zero -1 0 0
Div Int 0: 0 0 0 zero 0 0 0
Div Int 1: 0 0 -1 zero 1 0 0
Div Int 2147483646: 0 0 -2147483646 zero 2147483646 1 0
Div Int 2147483647: 0 -1 -2147483647 zero 2147483647 1 1
Div UInt 0: zero 0 0 0
Div UInt 1: zero 1 0 0
Div UInt 4294967294: zero 4294967294 1 0
Div UInt 4294967295: zero 4294967295 1 1
Div Long -2147483648: 1 1 overflow zero -2147483648 -1 -1
Div Long -2147483647: 0 1 2147483647 zero -2147483647 -1 -1
Div Long -1: 0 0 1 zero -1 0 0
Div Long 0: 0 0 0 zero 0 0 0
Div Long 1: 0 0 -1 zero 1 0 0
Div Long 2147483646: 0 0 -2147483646 zero 2147483646 1 0
Div Long 2147483647: 0 -1 -2147483647 zero 2147483647 1 1
Div ULong 0: zero 0 0 0
Div ULong 1: zero 1 0 0
Div ULong 4294967294: zero 4294967294 1 0
Div ULong 4294967295: zero 4294967295 1 1
Div LongLong -9223372036854775808: 1 1 overflow zero -9223372036854775808 -1 -1
Div LongLong -9223372036854775807: 0 1 9223372036854775807 zero -9223372036854775807 -1 -1
Div LongLong -1: 0 0 1 zero -1 0 0
Div LongLong 0: 0 0 0 zero 0 0 0
Div LongLong 1: 0 0 -1 zero 1 0 0
Div LongLong 9223372036854775806: 0 0 -9223372036854775806 zero 9223372036854775806 1 0
Div LongLong 9223372036854775807: 0 -1 -9223372036854775807 zero 9223372036854775807 1 1
Div ULongLong 0: zero 0 0 0
Div ULongLong 1: zero 1 0 0
Div ULongLong 18446744073709551614: zero 18446744073709551614 1 0
Div ULongLong 18446744073709551615: zero 18446744073709551615 1 1
Rem Bool 0: zero 0
Rem Bool 1: zero 0
Rem Char -128: 0 -1 overflow zero 0 -2 -1
Rem Char -127: -127 0 0 zero 0 -1 0
Rem Char -1: -1 -1 0 zero 0 -1 -1
Rem Char 0: 0 0 0 zero 0 0 0
Rem Char 1: 1 1 0 zero 0 1 1
Rem Char 126: 126 126 0 zero 0 0 126
Rem Char 127: 127 0 0 zero 0 1 0
Rem SChar -128: 0 -1 overflow zero 0 -2 -1
Rem SChar -127: -127 0 0 zero 0 -1 0
Rem SChar -1: -1 -1 0 zero 0 -1 -1
Rem SChar 0: 0 0 0 zero 0 0 0
Rem SChar 1: 1 1 0 zero 0 1 1
Rem SChar 126: 126 126 0 zero 0 0 126
Rem SChar 127: 127 0 0 zero 0 1 0
Rem UChar 0: zero 0 0 0
Rem UChar 1: zero 0 1 1
Rem UChar 254: zero 0 0 254
Rem UChar 255: zero 0 1 0
Rem Short -32768: 0 -1 overflow zero 0 -2 -1
Rem Short -32767: -32767 0 0 zero 0 -1 0
Rem Short -1: -1 -1 0 zero 0 -1 -1
Rem Short 0: 0 0 0 zero 0 0 0
Rem Short 1: 1 1 0 zero 0 1 1
Rem Short 32766: 32766 32766 0 zero 0 0 32766
Rem Short 32767: 32767 0 0 zero 0 1 0
Rem UShort 0: zero 0 0 0
Rem UShort 1: zero 0 1 1
Rem UShort 65534: zero 0 0 65534
Rem UShort 65535: zero 0 1 0
Rem Int -2147483648: 0 -1 overflow zero 0 -2 -1
Rem Int -2147483647: -2147483647 0 0 zero 0 -1 0
Rem Int -1: -1 -1 0 zero 0 -1 -1
Rem Int 0: 0 0 0 zero 0 0 0
Rem Int 1: 1 1 0 zero 0 1 1
Rem Int 2147483646: 2147483646 2147483646 0 zero 0 0 2147483646
Rem Int 2147483647: 2147483647 0 0 zero 0 1 0
Rem UInt 0: zero 0 0 0
Rem UInt 1: zero 0 1 1
Rem UInt 4294967294: zero 0 0 4294967294
Rem UInt 4294967295: zero 0 1 0
Rem Long -2147483648: 0 -1 overflow zero 0 -2 -1
Rem Long -2147483647: -2147483647 0 0 zero 0 -1 0
Rem Long -1: -1 -1 0 zero 0 -1 -1
Rem Long 0: 0 0 0 zero 0 0 0
Rem Long 1: 1 1 0 zero 0 1 1
Rem Long 2147483646: 2147483646 2147483646 0 zero 0 0 2147483646
Rem Long 2147483647: 2147483647 0 0 zero 0 1 0
Rem ULong 0: zero 0 0 0
Rem ULong 1: zero 0 1 1
Rem ULong 4294967294: zero 0 0 4294967294
Rem ULong 4294967295: zero 0 1 0
Rem LongLong -9223372036854775808: 0 -1 overflow zero 0 -2 -1
Rem LongLong -9223372036854775807: -9223372036854775807 0 0 zero 0 -1 0
Rem LongLong -1: -1 -1 0 zero 0 -1 -1
Rem LongLong 0: 0 0 0 zero 0 0 0
Rem LongLong 1: 1 1 0 zero 0 1 1
Rem LongLong 9223372036854775806: 9223372036854775806 9223372036854775806 0 zero 0 0 9223372036854775806
Rem LongLong 9223372036854775807: 9223372036854775807 0 0 zero 0 1 0
Rem ULongLong 0: zero 0 0 0
Rem ULongLong 1: zero 0 1 1
Rem ULongLong 18446744073709551614: zero 0 0 18446744073709551614
Rem ULongLong 18446744073709551615: zero 0 1 0
Shl Bool 0: count 0 count count
Shl Bool 1: count 1 count count
Shl Char -128: count count count value value value value count count count
Shl Char -127: count count count value value value value count count count
Shl Char -1: count count count value value value value count count count
Shl Char 0: count count count 0 0 0 0 count count count
Shl Char 1: count count count 1 2 64 value count count count
Shl Char 126: count count count 126 value value value count count count
Shl Char 127: count count count 127 value value value count count count
Shl SChar -128: count count count value value value value count count count
Shl SChar -127: count count count value value value value count count count
Shl SChar -1: count count count value value value value count count count
Shl SChar 0: count count count 0 0 0 0 count count count
Shl SChar 1: count count count 1 2 64 value count count count
Shl SChar 126: count count count 126 value value value count count count
Shl SChar 127: count count count 127 value value value count count count
Shl UChar 0: count 0 0 0 0 count count count
Shl UChar 1: count 1 2 64 128 count count count
Shl UChar 254: count 254 252 128 0 count count count
Shl UChar 255: count 255 254 192 128 count count count
Shl Short -32768: count count count value value value value count count count
Shl Short -32767: count count count value value value value count count count
Shl Short -1: count count count value value value value count count count
Shl Short 0: count count count 0 0 0 0 count count count
Shl Short 1: count count count 1 2 16384 value count count count
Shl Short 32766: count count count 32766 value value value count count count
Shl Short 32767: count count count 32767 value value value count count count
Shl UShort 0: count 0 0 0 0 count count count
Shl UShort 1: count 1 2 16384 32768 count count count
Shl UShort 65534: count 65534 65532 32768 0 count count count
Shl UShort 65535: count 65535 65534 49152 32768 count count count
Shl Int -2147483648: count count count value value value value count count count
Shl Int -2147483647: count count count value value value value count count count
Shl Int -1: count count count value value value value count count count
Shl Int 0: count count count 0 0 0 0 count count count
Shl Int 1: count count count 1 2 1073741824 value count count count
Shl Int 2147483646: count count count 2147483646 value value value count count count
Shl Int 2147483647: count count count 2147483647 value value value count count count
Shl UInt 0: count 0 0 0 0 count count count
Shl UInt 1: count 1 2 1073741824 2147483648 count count count
Shl UInt 4294967294: count 4294967294 4294967292 2147483648 0 count count count
Shl UInt 4294967295: count 4294967295 4294967294 3221225472 2147483648 count count count
Shl Long -2147483648: count count count value value value value count count count
Shl Long -2147483647: count count count value value value value count count count
Shl Long -1: count count count value value value value count count count
Shl Long 0: count count count 0 0 0 0 count count count
Shl Long 1: count count count 1 2 1073741824 value count count count
Shl Long 2147483646: count count count 2147483646 value value value count count count
Shl Long 2147483647: count count count 2147483647 value value value count count count
Shl ULong 0: count 0 0 0 0 count count count
Shl ULong 1: count 1 2 1073741824 2147483648 count count count
Shl ULong 4294967294: count 4294967294 4294967292 2147483648 0 count count count
Shl ULong 4294967295: count 4294967295 4294967294 3221225472 2147483648 count count count
Shl LongLong -9223372036854775808: count count count value value value value count count count
Shl LongLong -9223372036854775807: count count count value value value value count count count
Shl LongLong -1: count count count value value value value count count count
Shl LongLong 0: count count count 0 0 0 0 count count count
Shl LongLong 1: count count count 1 2 4611686018427387904 value count count count
Shl LongLong 9223372036854775806: count count count 9223372036854775806 value value value count count count
Shl LongLong 9223372036854775807: count count count 9223372036854775807 value value value count count count
Shl ULongLong 0: count 0 0 0 0 count count count
Shl ULongLong 1: count 1 2 4611686018427387904 9223372036854775808 count count count
Shl ULongLong 18446744073709551614: count 18446744073709551614 18446744073709551612 9223372036854775808 0 count count count
Shl ULongLong 18446744073709551615: count 18446744073709551615 18446744073709551614 13835058055282163712 9223372036854775808 count count count
Shr Bool 0: count 0 count count
Shr Bool 1: count 1 count count
Shr Char -128: count count count -128 -64 -2 -1 count count count
Shr Char -127: count count count -127 -64 -2 -1 count count count
Shr Char -1: count count count -1 -1 -1 -1 count count count
Shr Char 0: count count count 0 0 0 0 count count count
Shr Char 1: count count count 1 0 0 0 count count count
Shr Char 126: count count count 126 63 1 0 count count count
Shr Char 127: count count count 127 63 1 0 count count count
Shr SChar -128: count count count -128 -64 -2 -1 count count count
Shr SChar -127: count count count -127 -64 -2 -1 count count count
Shr SChar -1: count count count -1 -1 -1 -1 count count count
Shr SChar 0: count count count 0 0 0 0 count count count
Shr SChar 1: count count count 1 0 0 0 count count count
Shr SChar 126: count count count 126 63 1 0 count count count
Shr SChar 127: count count count 127 63 1 0 count count count
Shr UChar 0: count 0 0 0 0 count count count
Shr UChar 1: count 1 0 0 0 count count count
Shr UChar 254: count 254 127 3 1 count count count
Shr UChar 255: count 255 127 3 1 count count count
Shr Short -32768: count count count -32768 -16384 -2 -1 count count count
Shr Short -32767: count count count -32767 -16384 -2 -1 count count count
Shr Short -1: count count count -1 -1 -1 -1 count count count
Shr Short 0: count count count 0 0 0 0 count count count
Shr Short 1: count count count 1 0 0 0 count count count
Shr Short 32766: count count count 32766 16383 1 0 count count count
Shr Short 32767: count count count 32767 16383 1 0 count count count
Shr UShort 0: count 0 0 0 0 count count count
Shr UShort 1: count 1 0 0 0 count count count
Shr UShort 65534: count 65534 32767 3 1 count count count
Shr UShort 65535: count 65535 32767 3 1 count count count
Shr Int -2147483648: count count count -2147483648 -1073741824 -2 -1 count count count
Shr Int -2147483647: count count count -2147483647 -1073741824 -2 -1 count count count
Shr Int -1: count count count -1 -1 -1 -1 count count count
Shr Int 0: count count count 0 0 0 0 count count count
Shr Int 1: count count count 1 0 0 0 count count count
Shr Int 2147483646: count count count 2147483646 1073741823 1 0 count count count
Shr Int 2147483647: count count count 2147483647 1073741823 1 0 count count count
Shr UInt 0: count 0 0 0 0 count count count
Shr UInt 1: count 1 0 0 0 count count count
Shr UInt 4294967294: count 4294967294 2147483647 3 1 count count count
Shr UInt 4294967295: count 4294967295 2147483647 3 1 count count count
Shr Long -2147483648: count count count -2147483648 -1073741824 -2 -1 count count count
Shr Long -2147483647: count count count -2147483647 -1073741824 -2 -1 count count count
Shr Long -1: count count count -1 -1 -1 -1 count count count
Shr Long 0: count count count 0 0 0 0 count count count
Shr Long 1: count count count 1 0 0 0 count count count
Shr Long 2147483646: count count count 2147483646 1073741823 1 0 count count count
Shr Long 2147483647: count count count 2147483647 1073741823 1 0 count count count
Shr ULong 0: count 0 0 0 0 count count count
Shr ULong 1: count 1 0 0 0 count count count
Shr ULong 4294967294: count 4294967294 2147483647 3 1 count count count
Shr ULong 4294967295: count 4294967295 2147483647 3 1 count count count
Shr LongLong -9223372036854775808: count count count -9223372036854775808 -4611686018427387904 -2 -1 count count count
Shr LongLong -9223372036854775807: count count count -9223372036854775807 -4611686018427387904 -2 -1 count count count
Shr LongLong -1: count count count -1 -1 -1 -1 count count count
Shr LongLong 0: count count count 0 0 0 0 count count count
Shr LongLong 1: count count count 1 0 0 0 count count count
Shr LongLong 9223372036854775806: count count count 9223372036854775806 4611686018427387903 1 0 count count count
Shr LongLong 9223372036854775807: count count count 9223372036854775807 4611686018427387903 1 0 count count count
Shr ULongLong 0: count 0 0 0 0 count count count
Shr ULongLong 1: count 1 0 0 0 count count count
Shr ULongLong 18446744073709551614: count 18446744073709551614 9223372036854775807 3 1 count count count
Shr ULongLong 18446744073709551615: count 18446744073709551615 9223372036854775807 3 1 count count count
And Bool 0: 0 0
And Bool 1: 0 1
And Char -128: -128 -128 -128 0 0 0 0
And Char -127: -128 -127 -127 0 1 0 1
And Char -1: -128 -127 -1 0 1 126 127
And Char 0: 0 0 0 0 0 0 0
And Char 1: 0 1 1 0 1 0 1
And Char 126: 0 0 126 0 0 126 126
And Char 127: 0 1 127 0 1 126 127
And SChar -128: -128 -128 -128 0 0 0 0
And SChar -127: -128 -127 -127 0 1 0 1
And SChar -1: -128 -127 -1 0 1 126 127
And SChar 0: 0 0 0 0 0 0 0
And SChar 1: 0 1 1 0 1 0 1
And SChar 126: 0 0 126 0 0 126 126
And SChar 127: 0 1 127 0 1 126 127
And UChar 0: 0 0 0 0
And UChar 1: 0 1 0 1
And UChar 254: 0 0 254 254
And UChar 255: 0 1 254 255
And Short -32768: -32768 -32768 -32768 0 0 0 0
And Short -32767: -32768 -32767 -32767 0 1 0 1
And Short -1: -32768 -32767 -1 0 1 32766 32767
And Short 0: 0 0 0 0 0 0 0
And Short 1: 0 1 1 0 1 0 1
And Short 32766: 0 0 32766 0 0 32766 32766
And Short 32767: 0 1 32767 0 1 32766 32767
And UShort 0: 0 0 0 0
And UShort 1: 0 1 0 1
And UShort 65534: 0 0 65534 65534
And UShort 65535: 0 1 65534 65535
And Int -2147483648: -2147483648 -2147483648 -2147483648 0 0 0 0
And Int -2147483647: -2147483648 -2147483647 -2147483647 0 1 0 1
And Int -1: -2147483648 -2147483647 -1 0 1 2147483646 2147483647
And Int 0: 0 0 0 0 0 0 0
And Int 1: 0 1 1 0 1 0 1
And Int 2147483646: 0 0 2147483646 0 0 2147483646 2147483646
And Int 2147483647: 0 1 2147483647 0 1 2147483646 2147483647
And UInt 0: 0 0 0 0
And UInt 1: 0 1 0 1
And UInt 4294967294: 0 0 4294967294 4294967294
And UInt 4294967295: 0 1 4294967294 4294967295
And Long -2147483648: -2147483648 -2147483648 -2147483648 0 0 0 0
And Long -2147483647: -2147483648 -2147483647 -2147483647 0 1 0 1
And Long -1: -2147483648 -2147483647 -1 0 1 2147483646 2147483647
And Long 0: 0 0 0 0 0 0 0
And Long 1: 0 1 1 0 1 0 1
And Long 2147483646: 0 0 2147483646 0 0 2147483646 2147483646
And Long 2147483647: 0 1 2147483647 0 1 2147483646 2147483647
And ULong 0: 0 0 0 0
And ULong 1: 0 1 0 1
And ULong 4294967294: 0 0 4294967294 4294967294
And ULong 4294967295: 0 1 4294967294 4294967295
And LongLong -9223372036854775808: -9223372036854775808 -9223372036854775808 -9223372036854775808 0 0 0 0
And LongLong -9223372036854775807: -9223372036854775808 -9223372036854775807 -9223372036854775807 0 1 0 1
And LongLong -1: -9223372036854775808 -9223372036854775807 -1 0 1 9223372036854775806 9223372036854775807
And LongLong 0: 0 0 0 0 0 0 0
And LongLong 1: 0 1 1 0 1 0 1
And LongLong 9223372036854775806: 0 0 9223372036854775806 0 0 9223372036854775806 9223372036854775806
And LongLong 9223372036854775807: 0 1 9223372036854775807 0 1 9223372036854775806 9223372036854775807
And ULongLong 0: 0 0 0 0
And ULongLong 1: 0 1 0 1
And ULongLong 18446744073709551614: 0 0 18446744073709551614 18446744073709551614
And ULongLong 18446744073709551615: 0 1 18446744073709551614 18446744073709551615
Or Bool 0: 0 1
Or Bool 1: 1 1
Or Char -128: -128 -127 -1 -128 -127 -2 -1
Or Char -127: -127 -127 -1 -127 -127 -1 -1
Or Char -1: -1 -1 -1 -1 -1 -1 -1
Or Char 0: -128 -127 -1 0 1 126 127
Or Char 1: -127 -127 -1 1 1 127 127
Or Char 126: -2 -1 -1 126 127 126 127
Or Char 127: -1 -1 -1 127 127 127 127
Or SChar -128: -128 -127 -1 -128 -127 -2 -1
Or SChar -127: -127 -127 -1 -127 -127 -1 -1
Or SChar -1: -1 -1 -1 -1 -1 -1 -1
Or SChar 0: -128 -127 -1 0 1 126 127
Or SChar 1: -127 -127 -1 1 1 127 127
Or SChar 126: -2 -1 -1 126 127 126 127
Or SChar 127: -1 -1 -1 127 127 127 127
Or UChar 0: 0 1 254 255
Or UChar 1: 1 1 255 255
Or UChar 254: 254 255 254 255
Or UChar 255: 255 255 255 255
Or Short -32768: -32768 -32767 -1 -32768 -32767 -2 -1
Or Short -32767: -32767 -32767 -1 -32767 -32767 -1 -1
Or Short -1: -1 -1 -1 -1 -1 -1 -1
Or Short 0: -32768 -32767 -1 0 1 32766 32767
Or Short 1: -32767 -32767 -1 1 1 32767 32767
Or Short 32766: -2 -1 -1 32766 32767 32766 32767
Or Short 32767: -1 -1 -1 32767 32767 32767 32767
Or UShort 0: 0 1 65534 65535
Or UShort 1: 1 1 65535 65535
Or UShort 65534: 65534 65535 65534 65535
Or UShort 65535: 65535 65535 65535 65535
Or Int -2147483648: -2147483648 -2147483647 -1 -2147483648 -2147483647 -2 -1
Or Int -2147483647: -2147483647 -2147483647 -1 -2147483647 -2147483647 -1 -1
Or Int -1: -1 -1 -1 -1 -1 -1 -1
Or Int 0: -2147483648 -2147483647 -1 0 1 2147483646 2147483647
Or Int 1: -2147483647 -2147483647 -1 1 1 2147483647 2147483647
Or Int 2147483646: -2 -1 -1 2147483646 2147483647 2147483646 2147483647
Or Int 2147483647: -1 -1 -1 2147483647 2147483647 2147483647 2147483647
Or UInt 0: 0 1 4294967294 4294967295
Or UInt 1: 1 1 4294967295 4294967295
Or UInt 4294967294: 4294967294 4294967295 4294967294 4294967295
Or UInt 4294967295: 4294967295 4294967295 4294967295 4294967295
Or Long -2147483648: -2147483648 -2147483647 -1 -2147483648 -2147483647 -2 -1
Or Long -2147483647: -2147483647 -2147483647 -1 -2147483647 -2147483647 -1 -1
Or Long -1: -1 -1 -1 -1 -1 -1 -1
Or Long 0: -2147483648 -2147483647 -1 0 1 2147483646 2147483647
Or Long 1: -2147483647 -2147483647 -1 1 1 2147483647 2147483647
Or Long 2147483646: -2 -1 -1 2147483646 2147483647 2147483646 2147483647
Or Long 2147483647: -1 -1 -1 2147483647 2147483647 2147483647 2147483647
Or ULong 0: 0 1 4294967294 4294967295
Or ULong 1: 1 1 4294967295 4294967295
Or ULong 4294967294: 4294967294 4294967295 4294967294 4294967295
Or ULong 4294967295: 4294967295 4294967295 4294967295 4294967295
Or LongLong -9223372036854775808: -9223372036854775808 -9223372036854775807 -1 -9223372036854775808 -9223372036854775807 -2 -1
Or LongLong -9223372036854775807: -9223372036854775807 -9223372036854775807 -1 -9223372036854775807 -9223372036854775807 -1 -1
Or LongLong -1: -1 -1 -1 -1 -1 -1 -1
Or LongLong 0: -9223372036854775808 -9223372036854775807 -1 0 1 9223372036854775806 9223372036854775807
Or LongLong 1: -9223372036854775807 -9223372036854775807 -1 1 1 9223372036854775807 9223372036854775807
Or LongLong 9223372036854775806: -2 -1 -1 9223372036854775806 9223372036854775807 9223372036854775806 9223372036854775807
Or LongLong 9223372036854775807: -1 -1 -1 9223372036854775807 9223372036854775807 9223372036854775807 9223372036854775807
Or ULongLong 0: 0 1 18446744073709551614 18446744073709551615
Or ULongLong 1: 1 1 18446744073709551615 18446744073709551615
Or ULongLong 18446744073709551614: 18446744073709551614 18446744073709551615 18446744073709551614 18446744073709551615
Or ULongLong 18446744073709551615: 18446744073709551615 18446744073709551615 18446744073709551615 18446744073709551615
Xor Bool 0: 0 1
Xor Bool 1: 1 0
Xor Char -128: 0 1 127 -128 -127 -2 -1
Xor Char -127: 1 0 126 -127 -128 -1 -2
Xor Char -1: 127 126 0 -1 -2 -127 -128
Xor Char 0: -128 -127 -1 0 1 126 127
Xor Char 1: -127 -128 -2 1 0 127 126
Xor Char 126: -2 -1 -127 126 127 0 1
Xor Char 127: -1 -2 -128 127 126 1 0
Xor SChar -128: 0 1 127 -128 -127 -2 -1
Xor SChar -127: 1 0 126 -127 -128 -1 -2
Xor SChar -1: 127 126 0 -1 -2 -127 -128
Xor SChar 0: -128 -127 -1 0 1 126 127
Xor SChar 1: -127 -128 -2 1 0 127 126
Xor SChar 126: -2 -1 -127 126 127 0 1
Xor SChar 127: -1 -2 -128 127 126 1 0
Xor UChar 0: 0 1 254 255
Xor UChar 1: 1 0 255 254
Xor UChar 254: 254 255 0 1
Xor UChar 255: 255 254 1 0
Xor Short -32768: 0 1 32767 -32768 -32767 -2 -1
Xor Short -32767: 1 0 32766 -32767 -32768 -1 -2
Xor Short -1: 32767 32766 0 -1 -2 -32767 -32768
Xor Short 0: -32768 -32767 -1 0 1 32766 32767
Xor Short 1: -32767 -32768 -2 1 0 32767 32766
Xor Short 32766: -2 -1 -32767 32766 32767 0 1
Xor Short 32767: -1 -2 -32768 32767 32766 1 0
Xor UShort 0: 0 1 65534 65535
Xor UShort 1: 1 0 65535 65534
Xor UShort 65534: 65534 65535 0 1
Xor UShort 65535: 65535 65534 1 0
Xor Int -2147483648: 0 1 2147483647 -2147483648 -2147483647 -2 -1
Xor Int -2147483647: 1 0 2147483646 -2147483647 -2147483648 -1 -2
Xor Int -1: 2147483647 2147483646 0 -1 -2 -2147483647 -2147483648
Xor Int 0: -2147483648 -2147483647 -1 0 1 2147483646 2147483647
Xor Int 1: -2147483647 -2147483648 -2 1 0 2147483647 2147483646
Xor Int 2147483646: -2 -1 -2147483647 2147483646 2147483647 0 1
Xor Int 2147483647: -1 -2 -2147483648 2147483647 2147483646 1 0
Xor UInt 0: 0 1 4294967294 4294967295
Xor UInt 1: 1 0 4294967295 4294967294
Xor UInt 4294967294: 4294967294 4294967295 0 1
Xor UInt 4294967295: 4294967295 4294967294 1 0
Xor Long -2147483648: 0 1 2147483647 -2147483648 -2147483647 -2 -1
Xor Long -2147483647: 1 0 2147483646 -2147483647 -2147483648 -1 -2
Xor Long -1: 2147483647 2147483646 0 -1 -2 -2147483647 -2147483648
Xor Long 0: -2147483648 -2147483647 -1 0 1 2147483646 2147483647
Xor Long 1: -2147483647 -2147483648 -2 1 0 2147483647 2147483646
Xor Long 2147483646: -2 -1 -2147483647 2147483646 2147483647 0 1
Xor Long 2147483647: -1 -2 -2147483648 2147483647 2147483646 1 0
Xor ULong 0: 0 1 4294967294 4294967295
Xor ULong 1: 1 0 4294967295 4294967294
Xor ULong 4294967294: 4294967294 4294967295 0 1
Xor ULong 4294967295: 4294967295 4294967294 1 0
Xor LongLong -9223372036854775808: 0 1 9223372036854775807 -9223372036854775808 -9223372036854775807 -2 -1
Xor LongLong -9223372036854775807: 1 0 9223372036854775806 -9223372036854775807 -9223372036854775808 -1 -2
Xor LongLong -1: 9223372036854775807 9223372036854775806 0 -1 -2 -9223372036854775807 -9223372036854775808
Xor LongLong 0: -9223372036854775808 -9223372036854775807 -1 0 1 9223372036854775806 9223372036854775807
Xor LongLong 1: -9223372036854775807 -9223372036854775808 -2 1 0 9223372036854775807 9223372036854775806
Xor LongLong 9223372036854775806: -2 -1 -9223372036854775807 9223372036854775806 9223372036854775807 0 1
Xor LongLong 9223372036854775807: -1 -2 -9223372036854775808 9223372036854775807 9223372036854775806 1 0
Xor ULongLong 0: 0 1 18446744073709551614 18446744073709551615
Xor ULongLong 1: 1 0 18446744073709551615 18446744073709551614
Xor ULongLong 18446744073709551614: 18446744073709551614 18446744073709551615 0 1
Xor ULongLong 18446744073709551615: 18446744073709551615 18446744073709551614 1 0";

/// An operator and a type, and the answers for all operands.
pub const UNARY_OPERATORS: &str = "\
Neg Bool: 0 1
Neg Char: overflow 127 1 0 -1 -126 -127
Neg SChar: overflow 127 1 0 -1 -126 -127
Neg UChar: 0 255 2 1
Neg Short: overflow 32767 1 0 -1 -32766 -32767
Neg UShort: 0 65535 2 1
Neg Int: overflow 2147483647 1 0 -1 -2147483646 -2147483647
Neg UInt: 0 4294967295 2 1
Neg Long: overflow 2147483647 1 0 -1 -2147483646 -2147483647
Neg ULong: 0 4294967295 2 1
Neg LongLong: overflow 9223372036854775807 1 0 -1 -9223372036854775806 -9223372036854775807
Neg ULongLong: 0 18446744073709551615 2 1
Not Bool: 1 0
Not Char: 127 126 0 -1 -2 -127 -128
Not SChar: 127 126 0 -1 -2 -127 -128
Not UChar: 255 254 1 0
Not Short: 32767 32766 0 -1 -2 -32767 -32768
Not UShort: 65535 65534 1 0
Not Int: 2147483647 2147483646 0 -1 -2 -2147483647 -2147483648
Not UInt: 4294967295 4294967294 1 0
Not Long: 2147483647 2147483646 0 -1 -2 -2147483647 -2147483648
Not ULong: 4294967295 4294967294 1 0
Not LongLong: 9223372036854775807 9223372036854775806 0 -1 -2 -9223372036854775807 -9223372036854775808
Not ULongLong: 18446744073709551615 18446744073709551614 1 0";
