//! Lines of a program and the words that another assembler (clang) makes of them.
//!
//! Made by `tools/instruction_table.py`.

/// Each instruction with 32 choices of its operands: word and line.
pub(crate) const ROWS: &str = "
    0x01938233 start: add x4, x7, x25
    0x01A08EB3 p1: add x29, x1, x26
    0x00980333 p2: add x6, x16, x9
    0x00D18FB3 p3: add x31, x3, x13
    0x016B84B3 p4: add x9, x23, x22
    0x00228B33 p5: add x22, x5, x2
    0x01F703B3 p6: add x7, x14, x31
    0x00F007B3 p7: add x15, x0, x15
    0x00068033 p8: add x0, x13, x0
    0x005F00B3 p9: add x1, x30, x5
    0x00EB01B3 p10: add x3, x22, x14
    0x01B88533 p11: add x10, x17, x27
    0x01E58833 p12: add x16, x11, x30
    0x001F8A33 p13: add x20, x31, x1
    0x004D0D33 p14: add x26, x26, x4
    0x008C89B3 p15: add x19, x25, x8
    0x01248C33 p16: add x24, x9, x18
    0x010982B3 p17: add x5, x19, x16
    0x01190DB3 p18: add x27, x18, x17
    0x01310BB3 p19: add x23, x2, x19
    0x00640433 p20: add x8, x8, x6
    0x01720133 p21: add x2, x4, x23
    0x003785B3 p22: add x11, x15, x3
    0x00AA8633 p23: add x12, x21, x10
    0x007C0CB3 p24: add x25, x24, x7
    0x01550733 p25: add x14, x10, x21
    0x01C608B3 p26: add x17, x12, x28
    0x014E8933 p27: add x18, x29, x20
    0x00CA0F33 p28: add x30, x20, x12
    0x01830AB3 p29: add x21, x6, x24
    0x01DD86B3 p30: add x13, x27, x29
    0x00BE0E33 p31: add x28, x28, x11
    0x414287B3 p32: sub x15, x5, x20
    0x406509B3 p33: sub x19, x10, x6
    0x41F68533 p34: sub x10, x13, x31
    0x404F8833 p35: sub x16, x31, x4
    0x40758933 p36: sub x18, x11, x7
    0x41348E33 p37: sub x28, x9, x19
    0x40E103B3 p38: sub x7, x2, x14
    0x401B0CB3 p39: sub x25, x22, x1
    0x41980633 p40: sub x12, x16, x25
    0x41530BB3 p41: sub x23, x6, x21
    0x40020DB3 p42: sub x27, x4, x0
    0x416905B3 p43: sub x11, x18, x22
    0x41740333 p44: sub x6, x8, x23
    0x40878D33 p45: sub x26, x15, x8
    0x41DD8233 p46: sub x4, x27, x29
    0x40260A33 p47: sub x20, x12, x2
    0x41CC8AB3 p48: sub x21, x25, x28
    0x405E8133 p49: sub x2, x29, x5
    0x418B84B3 p50: sub x9, x23, x24
    0x40B001B3 p51: sub x3, x0, x11
    0x40DD0033 p52: sub x0, x26, x13
    0x412A0C33 p53: sub x24, x20, x18
    0x40370FB3 p54: sub x31, x14, x3
    0x41A880B3 p55: sub x1, x17, x26
    0x40C186B3 p56: sub x13, x3, x12
    0x410E08B3 p57: sub x17, x28, x16
    0x40FA8433 p58: sub x8, x21, x15
    0x41BF0733 p59: sub x14, x30, x27
    0x40A38B33 p60: sub x22, x7, x10
    0x41E98EB3 p61: sub x29, x19, x30
    0x411C02B3 p62: sub x5, x24, x17
    0x40908F33 p63: sub x30, x1, x9
    0x009615B3 p64: sll x11, x12, x9
    0x00149F33 p65: sll x30, x9, x1
    0x01911033 p66: sll x0, x2, x25
    0x007A9EB3 p67: sll x29, x21, x7
    0x00DF93B3 p68: sll x7, x31, x13
    0x01CC1533 p69: sll x10, x24, x28
    0x00239FB3 p70: sll x31, x7, x2
    0x01309B33 p71: sll x22, x1, x19
    0x00051A33 p72: sll x20, x10, x0
    0x01871833 p73: sll x16, x14, x24
    0x01589CB3 p74: sll x25, x17, x21
    0x012412B3 p75: sll x5, x8, x18
    0x01D219B3 p76: sll x19, x4, x29
    0x01F91E33 p77: sll x28, x18, x31
    0x00431AB3 p78: sll x21, x6, x4
    0x01479933 p79: sll x18, x15, x20
    0x00CF1C33 p80: sll x24, x30, x12
    0x008A1433 p81: sll x8, x20, x8
    0x01AD1733 p82: sll x14, x26, x26
    0x005017B3 p83: sll x15, x0, x5
    0x01BB1133 p84: sll x2, x22, x27
    0x010290B3 p85: sll x1, x5, x16
    0x017C9D33 p86: sll x26, x25, x23
    0x00BE91B3 p87: sll x3, x29, x11
    0x00699333 p88: sll x6, x19, x6
    0x01659233 p89: sll x4, x11, x22
    0x00FE16B3 p90: sll x13, x28, x15
    0x01E69633 p91: sll x12, x13, x30
    0x00ED94B3 p92: sll x9, x27, x14
    0x011B9BB3 p93: sll x23, x23, x17
    0x00A818B3 p94: sll x17, x16, x10
    0x00319DB3 p95: sll x27, x3, x3
    0x00BD2C33 p96: slt x24, x26, x11
    0x017329B3 p97: slt x19, x6, x23
    0x01CAA333 p98: slt x6, x21, x28
    0x008B2CB3 p99: slt x25, x22, x8
    0x00A2AAB3 p100: slt x21, x5, x10
    0x0031ABB3 p101: slt x23, x3, x3
    0x010A21B3 p102: slt x3, x20, x16
    0x01EBAA33 p103: slt x20, x23, x30
    0x00412F33 p104: slt x30, x2, x4
    0x01F8A033 p105: slt x0, x17, x31
    0x00FDADB3 p106: slt x27, x27, x15
    0x018625B3 p107: slt x11, x12, x24
    0x011C2933 p108: slt x18, x24, x17
    0x00DEAD33 p109: slt x26, x29, x13
    0x002E2B33 p110: slt x22, x28, x2
    0x01692433 p111: slt x8, x18, x22
    0x01282833 p112: slt x16, x16, x18
    0x0199A0B3 p113: slt x1, x19, x25
    0x001F2E33 p114: slt x28, x30, x1
    0x01A3A4B3 p115: slt x9, x7, x26
    0x013423B3 p116: slt x7, x8, x19
    0x0075A233 p117: slt x4, x11, x7
    0x00C6AEB3 p118: slt x29, x13, x12
    0x01B728B3 p119: slt x17, x14, x27
    0x01552733 p120: slt x14, x10, x21
    0x014CA2B3 p121: slt x5, x25, x20
    0x01D7A6B3 p122: slt x13, x15, x29
    0x00E0A133 p123: slt x2, x1, x14
    0x009FA7B3 p124: slt x15, x31, x9
    0x0004A633 p125: slt x12, x9, x0
    0x00502533 p126: slt x10, x0, x5
    0x00622FB3 p127: slt x31, x4, x6
    0x00C9B833 p128: sltu x16, x19, x12
    0x006F3BB3 p129: sltu x23, x30, x6
    0x00F2B0B3 p130: sltu x1, x5, x15
    0x002C33B3 p131: sltu x7, x24, x2
    0x01CFB6B3 p132: sltu x13, x31, x28
    0x008538B3 p133: sltu x17, x10, x8
    0x01B73533 p134: sltu x10, x14, x27
    0x01323133 p135: sltu x2, x4, x19
    0x0057BFB3 p136: sltu x31, x15, x5
    0x01FCB733 p137: sltu x14, x25, x31
    0x01E43C33 p138: sltu x24, x8, x30
    0x0075BB33 p139: sltu x22, x11, x7
    0x01013333 p140: sltu x6, x2, x16
    0x00E4BAB3 p141: sltu x21, x9, x14
    0x00B0B033 p142: sltu x0, x1, x11
    0x015AB433 p143: sltu x8, x21, x21
    0x0008B5B3 p144: sltu x11, x17, x0
    0x00D3B9B3 p145: sltu x19, x7, x13
    0x016DB633 p146: sltu x12, x27, x22
    0x014BBEB3 p147: sltu x29, x23, x20
    0x00433A33 p148: sltu x20, x6, x4
    0x01D1BF33 p149: sltu x30, x3, x29
    0x018D31B3 p150: sltu x3, x26, x24
    0x01103DB3 p151: sltu x27, x0, x17
    0x017E3E33 p152: sltu x28, x28, x23
    0x001832B3 p153: sltu x5, x16, x1
    0x00993D33 p154: sltu x26, x18, x9
    0x0036B4B3 p155: sltu x9, x13, x3
    0x01AA3233 p156: sltu x4, x20, x26
    0x012EBCB3 p157: sltu x25, x29, x18
    0x019B37B3 p158: sltu x15, x22, x25
    0x00A63933 p159: sltu x18, x12, x10
    0x001EC9B3 p160: xor x19, x29, x1
    0x00E9CAB3 p161: xor x21, x19, x14
    0x003CCA33 p162: xor x20, x25, x3
    0x01DE4FB3 p163: xor x31, x28, x29
    0x00AC4F33 p164: xor x30, x24, x10
    0x009240B3 p165: xor x1, x4, x9
    0x01A64133 p166: xor x2, x12, x26
    0x01E3C233 p167: xor x4, x7, x30
    0x015042B3 p168: xor x5, x0, x21
    0x00C54833 p169: xor x16, x10, x12
    0x000F4E33 p170: xor x28, x30, x0
    0x01074D33 p171: xor x26, x14, x16
    0x0028CBB3 p172: xor x23, x17, x2
    0x0176C333 p173: xor x6, x13, x23
    0x01194C33 p174: xor x24, x18, x17
    0x00F4C4B3 p175: xor x9, x9, x15
    0x0147C033 p176: xor x0, x15, x20
    0x00844633 p177: xor x12, x8, x8
    0x01B1CB33 p178: xor x22, x3, x27
    0x016A4EB3 p179: xor x29, x20, x22
    0x0182C733 p180: xor x14, x5, x24
    0x006BC6B3 p181: xor x13, x23, x6
    0x007DC1B3 p182: xor x3, x27, x7
    0x013B4CB3 p183: xor x25, x22, x19
    0x01F345B3 p184: xor x11, x6, x31
    0x004843B3 p185: xor x7, x16, x4
    0x01C0C7B3 p186: xor x15, x1, x28
    0x019AC533 p187: xor x10, x21, x25
    0x00B5C433 p188: xor x8, x11, x11
    0x00DFC8B3 p189: xor x17, x31, x13
    0x012D4DB3 p190: xor x27, x26, x18
    0x00514933 p191: xor x18, x2, x5
    0x00D956B3 p192: srl x13, x18, x13
    0x01B45733 p193: srl x14, x8, x27
    0x00B75BB3 p194: srl x23, x14, x11
    0x01E4D033 p195: srl x0, x9, x30
    0x007BDA33 p196: srl x20, x23, x7
    0x01985AB3 p197: srl x21, x16, x25
    0x0167DEB3 p198: srl x29, x15, x22
    0x010DD333 p199: srl x6, x27, x16
    0x008C54B3 p200: srl x9, x24, x8
    0x00405B33 p201: srl x22, x0, x4
    0x00125CB3 p202: srl x25, x4, x1
    0x00FFD433 p203: srl x8, x31, x15
    0x00E1D233 p204: srl x4, x3, x14
    0x003D5933 p205: srl x18, x26, x3
    0x0188D3B3 p206: srl x7, x17, x24
    0x01A6D2B3 p207: srl x5, x13, x26
    0x0133DC33 p208: srl x24, x7, x19
    0x0112D533 p209: srl x10, x5, x17
    0x017357B3 p210: srl x15, x6, x23
    0x0120DD33 p211: srl x26, x1, x18
    0x01C555B3 p212: srl x11, x10, x28
    0x00CED1B3 p213: srl x3, x29, x12
    0x005F5E33 p214: srl x28, x30, x5
    0x00AB5FB3 p215: srl x31, x22, x10
    0x015CDF33 p216: srl x30, x25, x21
    0x00215833 p217: srl x16, x2, x2
    0x0065D633 p218: srl x12, x11, x6
    0x000A5133 p219: srl x2, x20, x0
    0x009AD9B3 p220: srl x19, x21, x9
    0x01F658B3 p221: srl x17, x12, x31
    0x01DE50B3 p222: srl x1, x28, x29
    0x0149DDB3 p223: srl x27, x19, x20
    0x41BCD333 p224: sra x6, x25, x27
    0x4013DA33 p225: sra x20, x7, x1
    0x41E9DFB3 p226: sra x31, x19, x30
    0x41035D33 p227: sra x26, x6, x16
    0x41F7D6B3 p228: sra x13, x15, x31
    0x41AFDBB3 p229: sra x23, x31, x26
    0x41DC5EB3 p230: sra x29, x24, x29
    0x413858B3 p231: sra x17, x16, x19
    0x400F52B3 p232: sra x5, x30, x0
    0x4095D4B3 p233: sra x9, x11, x9
    0x406250B3 p234: sra x1, x4, x6
    0x41CED233 p235: sra x4, x29, x28
    0x40755E33 p236: sra x28, x10, x7
    0x40BD5AB3 p237: sra x21, x26, x11
    0x4191DDB3 p238: sra x27, x3, x25
    0x416057B3 p239: sra x15, x0, x22
    0x40A65C33 p240: sra x24, x12, x10
    0x403E5033 p241: sra x0, x28, x3
    0x41275B33 p242: sra x22, x14, x18
    0x41495CB3 p243: sra x25, x18, x20
    0x40DA59B3 p244: sra x19, x20, x13
    0x40E4D3B3 p245: sra x7, x9, x14
    0x4110DF33 p246: sra x30, x1, x17
    0x402B5533 p247: sra x10, x22, x2
    0x4088D1B3 p248: sra x3, x17, x8
    0x4052D833 p249: sra x16, x5, x5
    0x415DD733 p250: sra x14, x27, x21
    0x40F45933 p251: sra x18, x8, x15
    0x4186D633 p252: sra x12, x13, x24
    0x404BD133 p253: sra x2, x23, x4
    0x417155B3 p254: sra x11, x2, x23
    0x40CAD433 p255: sra x8, x21, x12
    0x01F16333 p256: or x6, x2, x31
    0x0005E3B3 p257: or x7, x11, x0
    0x01936533 p258: or x10, x6, x25
    0x00A56C33 p259: or x24, x10, x10
    0x002BE233 p260: or x4, x23, x2
    0x01C86433 p261: or x8, x16, x28
    0x0011EF33 p262: or x30, x3, x1
    0x00D666B3 p263: or x13, x12, x13
    0x015465B3 p264: or x11, x8, x21
    0x0132E9B3 p265: or x19, x5, x19
    0x006A6E33 p266: or x28, x20, x6
    0x01AC6933 p267: or x18, x24, x26
    0x0079E633 p268: or x12, x19, x7
    0x009E6FB3 p269: or x31, x28, x9
    0x011FED33 p270: or x26, x31, x17
    0x01076133 p271: or x2, x14, x16
    0x005B6CB3 p272: or x25, x22, x5
    0x012F6BB3 p273: or x23, x30, x18
    0x00B0EB33 p274: or x22, x1, x11
    0x01D7E7B3 p275: or x15, x15, x29
    0x008D6DB3 p276: or x27, x26, x8
    0x00EDE8B3 p277: or x17, x27, x14
    0x01EAEAB3 p278: or x21, x21, x30
    0x00C96833 p279: or x16, x18, x12
    0x004061B3 p280: or x3, x0, x4
    0x018EE033 p281: or x0, x29, x24
    0x00F262B3 p282: or x5, x4, x15
    0x0148E733 p283: or x14, x17, x20
    0x0036EA33 p284: or x20, x13, x3
    0x0163E0B3 p285: or x1, x7, x22
    0x01B4EEB3 p286: or x29, x9, x27
    0x017CE4B3 p287: or x9, x25, x23
    0x015671B3 p288: and x3, x12, x21
    0x0189F233 p289: and x4, x19, x24
    0x009EF9B3 p290: and x19, x29, x9
    0x00D1F4B3 p291: and x9, x3, x13
    0x00AA7F33 p292: and x30, x20, x10
    0x00E6FFB3 p293: and x31, x13, x14
    0x01107DB3 p294: and x27, x0, x17
    0x013CFE33 p295: and x28, x25, x19
    0x000FF433 p296: and x8, x31, x0
    0x014AF733 p297: and x14, x21, x20
    0x01AF78B3 p298: and x17, x30, x26
    0x00337133 p299: and x2, x6, x3
    0x00B3F533 p300: and x10, x7, x11
    0x01D7FB33 p301: and x22, x15, x29
    0x00C2FC33 p302: and x24, x5, x12
    0x00687BB3 p303: and x23, x16, x6
    0x00547633 p304: and x12, x8, x5
    0x004775B3 p305: and x11, x14, x4
    0x019D7833 p306: and x16, x26, x25
    0x016173B3 p307: and x7, x2, x22
    0x017E7A33 p308: and x20, x28, x23
    0x0100F7B3 p309: and x15, x1, x16
    0x01E972B3 p310: and x5, x18, x30
    0x01C27D33 p311: and x26, x4, x28
    0x007C7933 p312: and x18, x24, x7
    0x01B5FAB3 p313: and x21, x11, x27
    0x00FB7033 p314: and x0, x22, x15
    0x0028FEB3 p315: and x29, x17, x2
    0x008BFCB3 p316: and x25, x23, x8
    0x01FDF333 p317: and x6, x27, x31
    0x0014F0B3 p318: and x1, x9, x1
    0x012576B3 p319: and x13, x10, x18
    0x7FE60593 p320: addi x11, x12, 2046
    0x35248193 p321: addi x3, x9, 850
    0x701B8513 p322: addi x10, x23, 1793
    0x00100313 p323: addi x6, x0, 1
    0xF71F8393 p324: addi x7, x31, -143
    0xD1230F93 p325: addi x31, x6, -750
    0x734A8893 p326: addi x17, x21, 1844
    0x35090713 p327: addi x14, x18, 848
    0x80170813 p328: addi x16, x14, -2047
    0xDACD0013 p329: addi x0, x26, -596
    0x675A0B13 p330: addi x22, x20, 1653
    0x70D08A93 p331: addi x21, x1, 1805
    0xE0D10C13 p332: addi x24, x2, -499
    0xCA1D8213 p333: addi x4, x27, -863
    0x8A088A13 p334: addi x20, x17, -1888
    0x18080993 p335: addi x19, x16, 384
    0x5A620D13 p336: addi x26, x4, 1446
    0xCFE78293 p337: addi x5, x15, -770
    0x7FFC0113 p338: addi x2, x24, 2047
    0x23838F13 p339: addi x30, x7, 568
    0x80098913 p340: addi x18, x19, -2048
    0x64840D93 p341: addi x27, x8, 1608
    0x7ECB0793 p342: addi x15, x22, 2028
    0xF86E0413 p343: addi x8, x28, -122
    0x0DB18E93 p344: addi x29, x3, 219
    0xFFFF0693 p345: addi x13, x30, -1
    0x0B5C8613 p346: addi x12, x25, 181
    0x000E8093 p347: addi x1, x29, 0
    0xB4628E13 p348: addi x28, x5, -1210
    0x7F168493 p349: addi x9, x13, 2033
    0x0FC50C93 p350: addi x25, x10, 252
    0x3B258B93 p351: addi x23, x11, 946
    0xC1CEAE93 p352: slti x29, x29, -996
    0xD56C2393 p353: slti x7, x24, -682
    0x0C032A93 p354: slti x21, x6, 192
    0xBF2CA893 p355: slti x17, x25, -1038
    0x82612F93 p356: slti x31, x2, -2010
    0x87702913 p357: slti x18, x0, -1929
    0x5028A793 p358: slti x15, x17, 1282
    0xAA53A293 p359: slti x5, x7, -1371
    0x801D2F13 p360: slti x30, x26, -2047
    0x51E42413 p361: slti x8, x8, 1310
    0x003AAD13 p362: slti x26, x21, 3
    0x7FF5A593 p363: slti x11, x11, 2047
    0x72F7A013 p364: slti x0, x15, 1839
    0x7FE9A713 p365: slti x14, x19, 2046
    0x00052C13 p366: slti x24, x10, 0
    0x13A72113 p367: slti x2, x14, 314
    0x6C4FA193 p368: slti x3, x31, 1732
    0x800E2313 p369: slti x6, x28, -2048
    0x28392993 p370: slti x19, x18, 643
    0xDFC6AB13 p371: slti x22, x13, -516
    0x00122213 p372: slti x4, x4, 1
    0xF2BB2E13 p373: slti x28, x22, -213
    0xFFFA2093 p374: slti x1, x20, -1
    0x4A91AC93 p375: slti x25, x3, 1193
    0x44A62B93 p376: slti x23, x12, 1098
    0xEF42A513 p377: slti x10, x5, -268
    0xA00BA613 p378: slti x12, x23, -1536
    0xD604A493 p379: slti x9, x9, -672
    0x7D5DAA13 p380: slti x20, x27, 2005
    0x97DF2693 p381: slti x13, x30, -1667
    0x5CB82813 p382: slti x16, x16, 1483
    0xB5D0AD93 p383: slti x27, x1, -1187
    0xFFFDBD13 p384: sltiu x26, x27, -1
    0x33063493 p385: sltiu x9, x12, 816
    0xA9ABBF93 p386: sltiu x31, x23, -1382
    0x0203B713 p387: sltiu x14, x7, 32
    0xBFD33A13 p388: sltiu x20, x6, -1027
    0x800AB813 p389: sltiu x16, x21, -2048
    0xBE403793 p390: sltiu x15, x0, -1052
    0x0006B593 p391: sltiu x11, x13, 0
    0x98ACB413 p392: sltiu x8, x25, -1654
    0x63E53193 p393: sltiu x3, x10, 1598
    0x801C3113 p394: sltiu x2, x24, -2047
    0x9B483C13 p395: sltiu x24, x16, -1612
    0x716B3A93 p396: sltiu x21, x22, 1814
    0x8A343B13 p397: sltiu x22, x8, -1885
    0x149E3693 p398: sltiu x13, x28, 329
    0x5861B913 p399: sltiu x18, x3, 1414
    0xB508B013 p400: sltiu x0, x17, -1200
    0x400A3313 p401: sltiu x6, x20, 1024
    0x2CD7B893 p402: sltiu x17, x15, 717
    0x05D23E93 p403: sltiu x29, x4, 93
    0x2BEEB293 p404: sltiu x5, x29, 702
    0x0012BF13 p405: sltiu x30, x5, 1
    0x7FF0BB93 p406: sltiu x23, x1, 2047
    0x1A35B993 p407: sltiu x19, x11, 419
    0x8D913213 p408: sltiu x4, x2, -1831
    0x7FE4BE13 p409: sltiu x28, x9, 2046
    0xC749B393 p410: sltiu x7, x19, -908
    0xD9593613 p411: sltiu x12, x18, -619
    0xE15FB093 p412: sltiu x1, x31, -491
    0xDA4F3C93 p413: sltiu x25, x30, -604
    0xB2CD3513 p414: sltiu x10, x26, -1236
    0xF5273D93 p415: sltiu x27, x14, -174
    0x4087C793 p416: xori x15, x15, 1032
    0xD77C4193 p417: xori x3, x24, -649
    0x3528C913 p418: xori x18, x17, 850
    0xE560C713 p419: xori x14, x1, -426
    0x000ECF93 p420: xori x31, x29, 0
    0x9C44C493 p421: xori x9, x9, -1596
    0x7FEDC113 p422: xori x2, x27, 2046
    0x1BAACE13 p423: xori x28, x21, 442
    0x0016CF13 p424: xori x30, x13, 1
    0xF8A24613 p425: xori x12, x4, -118
    0x16414213 p426: xori x4, x2, 356
    0x8CC54693 p427: xori x13, x10, -1844
    0x72F44893 p428: xori x17, x8, 1839
    0xF99F4E93 p429: xori x29, x30, -103
    0x60434293 p430: xori x5, x6, 1540
    0xF8BB4313 p431: xori x6, x22, -117
    0xFFFCCC13 p432: xori x24, x25, -1
    0xEBC04993 p433: xori x19, x0, -324
    0x4E784013 p434: xori x0, x16, 1255
    0x73F74413 p435: xori x8, x14, 1855
    0x1FD9C813 p436: xori x16, x19, 509
    0x8012C093 p437: xori x1, x5, -2047
    0x7FF94A93 p438: xori x21, x18, 2047
    0xB795C393 p439: xori x7, x11, -1159
    0x800A4D13 p440: xori x26, x20, -2048
    0x0C2E4513 p441: xori x10, x28, 194
    0xF73D4C93 p442: xori x25, x26, -141
    0x16B64B93 p443: xori x23, x12, 363
    0xF7F3C593 p444: xori x11, x7, -129
    0xAF8FCA13 p445: xori x20, x31, -1288
    0x2951CB13 p446: xori x22, x3, 661
    0x080BCD93 p447: xori x27, x23, 128
    0xE907E513 p448: ori x10, x15, -368
    0x7F21E913 p449: ori x18, x3, 2034
    0x0D64E893 p450: ori x17, x9, 214
    0x44C06693 p451: ori x13, x0, 1100
    0xF54BE813 p452: ori x16, x23, -172
    0x108AEA13 p453: ori x20, x21, 264
    0x9A6DE193 p454: ori x3, x27, -1626
    0x9C0FE213 p455: ori x4, x31, -1600
    0x7BE46F13 p456: ori x30, x8, 1982
    0xA2ACEC93 p457: ori x25, x25, -1494
    0x51B8E493 p458: ori x9, x17, 1307
    0x99EEEF93 p459: ori x31, x29, -1634
    0xFFF56E93 p460: ori x29, x10, -1
    0xCAD3E293 p461: ori x5, x7, -851
    0x800C6B93 p462: ori x23, x24, -2048
    0x155B6613 p463: ori x12, x22, 341
    0x80126113 p464: ori x2, x4, -2047
    0xC2D66093 p465: ori x1, x12, -979
    0x6E45ED93 p466: ori x27, x11, 1764
    0x47DF6593 p467: ori x11, x30, 1149
    0x7FF96713 p468: ori x14, x18, 2047
    0xD38A6013 p469: ori x0, x20, -712
    0x000D6E13 p470: ori x28, x26, 0
    0xBDB16793 p471: ori x15, x2, -1061
    0x7FE9E413 p472: ori x8, x19, 2046
    0xB0776393 p473: ori x7, x14, -1273
    0xF440E993 p474: ori x19, x1, -188
    0x3D62EC13 p475: ori x24, x5, 982
    0x3EF6E313 p476: ori x6, x13, 1007
    0x392E6D13 p477: ori x26, x28, 914
    0x2F286B13 p478: ori x22, x16, 754
    0x00136A93 p479: ori x21, x6, 1
    0x9C59F693 p480: andi x13, x19, -1595
    0x6CBEFE13 p481: andi x28, x29, 1739
    0x61147013 p482: andi x0, x8, 1553
    0x39F17A93 p483: andi x21, x2, 927
    0x000AF193 p484: andi x3, x21, 0
    0x4132FB13 p485: andi x22, x5, 1043
    0x151B7F93 p486: andi x31, x22, 337
    0x1A157313 p487: andi x6, x10, 417
    0xE225F893 p488: andi x17, x11, -478
    0xFFFC7E93 p489: andi x29, x24, -1
    0x1C4DF113 p490: andi x2, x27, 452
    0x51ED7813 p491: andi x16, x26, 1310
    0x2540F713 p492: andi x14, x1, 596
    0x5B567D13 p493: andi x26, x12, 1461
    0x3C9FF213 p494: andi x4, x31, 969
    0x51DA7293 p495: andi x5, x20, 1309
    0x80107B93 p496: andi x23, x0, -2047
    0x800CF513 p497: andi x10, x25, -2048
    0xBB5BF593 p498: andi x11, x23, -1099
    0x00127C93 p499: andi x25, x4, 1
    0xDE23FC13 p500: andi x24, x7, -542
    0xCF47FF13 p501: andi x30, x15, -780
    0x13E6F993 p502: andi x19, x13, 318
    0x922E7393 p503: andi x7, x28, -1758
    0x704F7493 p504: andi x9, x30, 1796
    0x9E597093 p505: andi x1, x18, -1563
    0x76D8FA13 p506: andi x20, x17, 1901
    0x7FE4F413 p507: andi x8, x9, 2046
    0x37A77D93 p508: andi x27, x14, 890
    0xA5C1F613 p509: andi x12, x3, -1444
    0x7FF87913 p510: andi x18, x16, 2047
    0x2FB37793 p511: andi x15, x6, 763
    0x01CA9B93 p512: slli x23, x21, 28
    0x00431A13 p513: slli x20, x6, 4
    0x00E39D93 p514: slli x27, x7, 14
    0x01159193 p515: slli x3, x11, 17
    0x01B41813 p516: slli x16, x8, 27
    0x01221393 p517: slli x7, x4, 18
    0x00671593 p518: slli x11, x14, 6
    0x01D19E93 p519: slli x29, x3, 29
    0x00AD9A93 p520: slli x21, x27, 10
    0x001B1113 p521: slli x2, x22, 1
    0x00D29413 p522: slli x8, x5, 13
    0x003C9C13 p523: slli x24, x25, 3
    0x015C1793 p524: slli x15, x24, 21
    0x00BA1293 p525: slli x5, x20, 11
    0x01A11F13 p526: slli x30, x2, 26
    0x00591C93 p527: slli x25, x18, 5
    0x01E69013 p528: slli x0, x13, 30
    0x01309213 p529: slli x4, x1, 19
    0x00079D13 p530: slli x26, x15, 0
    0x008D1893 p531: slli x17, x26, 8
    0x01751513 p532: slli x10, x10, 23
    0x00FF1B13 p533: slli x22, x30, 15
    0x01601493 p534: slli x9, x0, 22
    0x002E1713 p535: slli x14, x28, 2
    0x01F89913 p536: slli x18, x17, 31
    0x00C99E13 p537: slli x28, x19, 12
    0x01949093 p538: slli x1, x9, 25
    0x01081313 p539: slli x6, x16, 16
    0x018F9693 p540: slli x13, x31, 24
    0x014B9F93 p541: slli x31, x23, 20
    0x00761993 p542: slli x19, x12, 7
    0x009E9613 p543: slli x12, x29, 9
    0x00105813 p544: srli x16, x0, 1
    0x010F5013 p545: srli x0, x30, 16
    0x01D4DA93 p546: srli x21, x9, 29
    0x0182DC13 p547: srli x24, x5, 24
    0x01EDD913 p548: srli x18, x27, 30
    0x00285393 p549: srli x7, x16, 2
    0x00D0D293 p550: srli x5, x1, 13
    0x00765E13 p551: srli x28, x12, 7
    0x0099DB13 p552: srli x22, x19, 9
    0x017E5493 p553: srli x9, x28, 23
    0x00A6DD93 p554: srli x27, x13, 10
    0x01515F93 p555: srli x31, x2, 21
    0x01FAD613 p556: srli x12, x21, 31
    0x00E7DB93 p557: srli x23, x15, 14
    0x01B8DD13 p558: srli x26, x17, 27
    0x01135713 p559: srli x14, x6, 17
    0x004B5993 p560: srli x19, x22, 4
    0x01395113 p561: srli x2, x18, 19
    0x00CC5A13 p562: srli x20, x24, 12
    0x00B1D093 p563: srli x1, x3, 11
    0x012FD793 p564: srli x15, x31, 18
    0x0065DE93 p565: srli x29, x11, 6
    0x01675193 p566: srli x3, x14, 22
    0x00325C93 p567: srli x25, x4, 3
    0x00045213 p568: srli x4, x8, 0
    0x014BD313 p569: srli x6, x23, 20
    0x00F3D593 p570: srli x11, x7, 15
    0x01C55F13 p571: srli x30, x10, 28
    0x01ACD893 p572: srli x17, x25, 26
    0x005D5693 p573: srli x13, x26, 5
    0x008A5413 p574: srli x8, x20, 8
    0x019ED513 p575: srli x10, x29, 25
    0x40FF5793 p576: srai x15, x30, 15
    0x41D35613 p577: srai x12, x6, 29
    0x4147DF93 p578: srai x31, x15, 20
    0x400EDF13 p579: srai x30, x29, 0
    0x41015893 p580: srai x17, x2, 16
    0x4095DD13 p581: srai x26, x11, 9
    0x41855913 p582: srai x18, x10, 24
    0x41A75493 p583: srai x9, x14, 26
    0x4053D093 p584: srai x1, x7, 5
    0x4126DB13 p585: srai x22, x13, 18
    0x413E5193 p586: srai x3, x28, 19
    0x41105A13 p587: srai x20, x0, 17
    0x407AD813 p588: srai x16, x21, 7
    0x404CD713 p589: srai x14, x25, 4
    0x419BDA93 p590: srai x21, x23, 25
    0x41CA5513 p591: srai x10, x20, 28
    0x40845C13 p592: srai x24, x8, 8
    0x40D95293 p593: srai x5, x18, 13
    0x4064DD93 p594: srai x27, x9, 6
    0x41725213 p595: srai x4, x4, 23
    0x40A1DE13 p596: srai x28, x3, 10
    0x4150D013 p597: srai x0, x1, 21
    0x416B5413 p598: srai x8, x22, 22
    0x40E2DC93 p599: srai x25, x5, 14
    0x41BFDE93 p600: srai x29, x31, 27
    0x40B8D593 p601: srai x11, x17, 11
    0x41EDD393 p602: srai x7, x27, 30
    0x40C85313 p603: srai x6, x16, 12
    0x403D5993 p604: srai x19, x26, 3
    0x4029D693 p605: srai x13, x19, 2
    0x41FC5113 p606: srai x2, x24, 31
    0x40165B93 p607: srai x23, x12, 1
    0x568F8B03 p608: lb x22, 1384(x31)
    0x7F360C83 p609: lb x25, 2035(x12)
    0x42CC8703 p610: lb x14, 1068(x25)
    0x7FFD8C03 p611: lb x24, 2047(x27)
    0x878E0983 p612: lb x19, -1928(x28)
    0xDFD10B83 p613: lb x23, -515(x2)
    0x80088483 p614: lb x9, -2048(x17)
    0x07AD0A03 p615: lb x20, 122(x26)
    0xB0448503 p616: lb x10, -1276(x9)
    0xD51E8103 p617: lb x2, -687(x29)
    0x3E778683 p618: lb x13, 999(x15)
    0x03C20E83 p619: lb x29, 60(x4)
    0x001B0283 p620: lb x5, 1(x22)
    0xFFF70883 p621: lb x17, -1(x14)
    0x6C918A83 p622: lb x21, 1737(x3)
    0x90758803 p623: lb x16, -1785(x11)
    0x80140D03 p624: lb x26, -2047(x8)
    0x511A8E03 p625: lb x28, 1297(x21)
    0xE3100F03 p626: lb x30, -463(x0)
    0xB1968203 p627: lb x4, -1255(x13)
    0xED930D83 p628: lb x27, -295(x6)
    0x7FE50603 p629: lb x12, 2046(x10)
    0x000B8003 p630: lb x0, 0(x23)
    0x25880583 p631: lb x11, 600(x16)
    0xCA9A0903 p632: lb x18, -855(x20)
    0x1C828383 p633: lb x7, 456(x5)
    0x23098783 p634: lb x15, 560(x19)
    0xE8D38F83 p635: lb x31, -371(x7)
    0xCC1F0403 p636: lb x8, -831(x30)
    0x48208303 p637: lb x6, 1154(x1)
    0xB96C0083 p638: lb x1, -1130(x24)
    0xE6790183 p639: lb x3, -409(x18)
    0x7DF91983 p640: lh x19, 2015(x18)
    0x40471B83 p641: lh x23, 1028(x14)
    0xEE8B9B03 p642: lh x22, -280(x23)
    0x38BB1A83 p643: lh x21, 907(x22)
    0xECE79703 p644: lh x14, -306(x15)
    0x7FF69C83 p645: lh x25, 2047(x13)
    0xF66D1F83 p646: lh x31, -154(x26)
    0xFFD89803 p647: lh x16, -3(x17)
    0xA1521003 p648: lh x0, -1515(x4)
    0xB8311903 p649: lh x18, -1149(x2)
    0xA8909D83 p650: lh x27, -1399(x1)
    0x80041603 p651: lh x12, -2048(x8)
    0x24BE1083 p652: lh x1, 587(x28)
    0x785A1D03 p653: lh x26, 1925(x20)
    0x9E929283 p654: lh x5, -1559(x5)
    0x69681503 p655: lh x10, 1686(x16)
    0x00101203 p656: lh x4, 1(x0)
    0x80139783 p657: lh x15, -2047(x7)
    0xB1EF9A03 p658: lh x20, -1250(x31)
    0xA9A99F03 p659: lh x30, -1382(x19)
    0x88AA9583 p660: lh x11, -1910(x21)
    0x439D9C03 p661: lh x24, 1081(x27)
    0x52159403 p662: lh x8, 1313(x11)
    0xB04E9683 p663: lh x13, -1276(x29)
    0x00031E03 p664: lh x28, 0(x6)
    0x7FE49303 p665: lh x6, 2046(x9)
    0x6C461483 p666: lh x9, 1732(x12)
    0x57A51183 p667: lh x3, 1402(x10)
    0x29EC1883 p668: lh x17, 670(x24)
    0xFFFC9E83 p669: lh x29, -1(x25)
    0x6A519383 p670: lh x7, 1701(x3)
    0x91BF1103 p671: lh x2, -1765(x30)
    0x434BAC03 p672: lw x24, 1076(x23)
    0x7FE6A383 p673: lw x7, 2046(x13)
    0x00092103 p674: lw x2, 0(x18)
    0x6DF42483 p675: lw x9, 1759(x8)
    0xF50C2B03 p676: lw x22, -176(x24)
    0x48502A83 p677: lw x21, 1157(x0)
    0x80082F03 p678: lw x30, -2048(x16)
    0xDEFEA903 p679: lw x18, -529(x29)
    0xFBDCA803 p680: lw x16, -67(x25)
    0x356F2983 p681: lw x19, 854(x30)
    0xCB94A083 p682: lw x1, -839(x9)
    0xA37E2603 p683: lw x12, -1481(x28)
    0x78E9AD83 p684: lw x27, 1934(x19)
    0xA3962E83 p685: lw x29, -1479(x12)
    0xF983A203 p686: lw x4, -104(x7)
    0x80112883 p687: lw x17, -2047(x2)
    0xAC722D03 p688: lw x26, -1337(x4)
    0x00152A03 p689: lw x20, 1(x10)
    0x5790AC83 p690: lw x25, 1401(x1)
    0x56A7A283 p691: lw x5, 1386(x15)
    0x5965A003 p692: lw x0, 1430(x11)
    0x2EFDAF83 p693: lw x31, 751(x27)
    0xFFF2AE03 p694: lw x28, -1(x5)
    0x5DE1A303 p695: lw x6, 1502(x3)
    0xAD932683 p696: lw x13, -1319(x6)
    0xF58B2583 p697: lw x11, -168(x22)
    0x7FF8A783 p698: lw x15, 2047(x17)
    0x21BA2703 p699: lw x14, 539(x20)
    0xBA272403 p700: lw x8, -1118(x14)
    0xBFBAA503 p701: lw x10, -1029(x21)
    0xE3DD2183 p702: lw x3, -451(x26)
    0x792FAB83 p703: lw x23, 1938(x31)
    0x00044903 p704: lbu x18, 0(x8)
    0xB15ACB83 p705: lbu x23, -1259(x21)
    0x14C3CC03 p706: lbu x24, 332(x7)
    0x521F4783 p707: lbu x15, 1313(x30)
    0x00134883 p708: lbu x17, 1(x6)
    0xF0B24603 p709: lbu x12, -245(x4)
    0xF01BCE83 p710: lbu x29, -255(x23)
    0xA004C283 p711: lbu x5, -1536(x9)
    0xB115C483 p712: lbu x9, -1263(x11)
    0xA1C8C703 p713: lbu x14, -1508(x17)
    0x5A2FC683 p714: lbu x13, 1442(x31)
    0xBCC64C83 p715: lbu x25, -1076(x12)
    0xA1CC4183 p716: lbu x3, -1508(x24)
    0x30B14403 p717: lbu x8, 779(x2)
    0xA48E4503 p718: lbu x10, -1464(x28)
    0x6B10CA03 p719: lbu x20, 1713(x1)
    0x907DC103 p720: lbu x2, -1785(x27)
    0x7FE74E03 p721: lbu x28, 2046(x14)
    0x1D07CD03 p722: lbu x26, 464(x15)
    0xC3494F03 p723: lbu x30, -972(x18)
    0x7FF84A83 p724: lbu x21, 2047(x16)
    0xCEE9C083 p725: lbu x1, -786(x19)
    0xFFFD4983 p726: lbu x19, -1(x26)
    0x7E91C583 p727: lbu x11, 2025(x3)
    0x33504F83 p728: lbu x31, 821(x0)
    0x918ECD83 p729: lbu x27, -1768(x29)
    0x68B2C203 p730: lbu x4, 1675(x5)
    0xE8FCC303 p731: lbu x6, -369(x25)
    0x7216C383 p732: lbu x7, 1825(x13)
    0x800A4003 p733: lbu x0, -2048(x20)
    0xE1EB4803 p734: lbu x16, -482(x22)
    0x80154B03 p735: lbu x22, -2047(x10)
    0x865DDC83 p736: lhu x25, -1947(x27)
    0x839FD003 p737: lhu x0, -1991(x31)
    0x80025283 p738: lhu x5, -2048(x4)
    0xBCEC5D83 p739: lhu x27, -1074(x24)
    0x39F4D203 p740: lhu x4, 927(x9)
    0x7E465803 p741: lhu x16, 2020(x12)
    0x7C8ED103 p742: lhu x2, 1992(x29)
    0x4C245683 p743: lhu x13, 1218(x8)
    0xDD15DB03 p744: lhu x22, -559(x11)
    0x9F4D5603 p745: lhu x12, -1548(x26)
    0x3D415F03 p746: lhu x30, 980(x2)
    0x00005E03 p747: lhu x28, 0(x0)
    0x8018D403 p748: lhu x8, -2047(x17)
    0x39F95B83 p749: lhu x23, 927(x18)
    0x45FBD583 p750: lhu x11, 1119(x23)
    0x7CCF5E83 p751: lhu x29, 1996(x30)
    0x7FF9D703 p752: lhu x14, 2047(x19)
    0x4116D083 p753: lhu x1, 1041(x13)
    0x7FE0D783 p754: lhu x15, 2046(x1)
    0xFFFE5983 p755: lhu x19, -1(x28)
    0xA0F2D303 p756: lhu x6, -1521(x5)
    0xCB235883 p757: lhu x17, -846(x6)
    0xE5DB5903 p758: lhu x18, -419(x22)
    0x7B7ADC03 p759: lhu x24, 1975(x21)
    0x78B7D483 p760: lhu x9, 1931(x15)
    0x969CDA83 p761: lhu x21, -1687(x25)
    0xEB93DD03 p762: lhu x26, -327(x7)
    0xAA655A03 p763: lhu x20, -1370(x10)
    0x001A5F83 p764: lhu x31, 1(x20)
    0x04975183 p765: lhu x3, 73(x14)
    0x0501D503 p766: lhu x10, 80(x3)
    0xC0E85383 p767: lhu x7, -1010(x16)
    0xD76F8AE7 p768: jalr x21, -650(x31)
    0x10D98867 p769: jalr x16, 269(x19)
    0xFEB38E67 p770: jalr x28, -21(x7)
    0xF0B90DE7 p771: jalr x27, -245(x18)
    0x000105E7 p772: jalr x11, 0(x2)
    0x800284E7 p773: jalr x9, -2048(x5)
    0xB53880E7 p774: jalr x1, -1197(x17)
    0x253F0467 p775: jalr x8, 595(x30)
    0x47930667 p776: jalr x12, 1145(x6)
    0xF99D08E7 p777: jalr x17, -103(x26)
    0x00148167 p778: jalr x2, 1(x9)
    0xE47E8EE7 p779: jalr x29, -441(x29)
    0x74BB8C67 p780: jalr x24, 1867(x23)
    0x7FF00767 p781: jalr x14, 2047(x0)
    0xFDFA0067 p782: jalr x0, -33(x20)
    0xC18503E7 p783: jalr x7, -1000(x10)
    0x179D89E7 p784: jalr x19, 377(x27)
    0x166201E7 p785: jalr x3, 358(x4)
    0xD61B0CE7 p786: jalr x25, -671(x22)
    0x7FE68B67 p787: jalr x22, 2046(x13)
    0x48608F67 p788: jalr x30, 1158(x1)
    0x13878967 p789: jalr x18, 312(x15)
    0xFFFA8267 p790: jalr x4, -1(x21)
    0xBA670D67 p791: jalr x26, -1114(x14)
    0x9E8802E7 p792: jalr x5, -1560(x16)
    0xAC218567 p793: jalr x10, -1342(x3)
    0x276C8FE7 p794: jalr x31, 630(x25)
    0xDAD40367 p795: jalr x6, -595(x8)
    0x377C0A67 p796: jalr x20, 887(x24)
    0xB6A587E7 p797: jalr x15, -1174(x11)
    0x801606E7 p798: jalr x13, -2047(x12)
    0x622E0BE7 p799: jalr x23, 1570(x28)
    0x5A408CA3 p800: sb x4, 1465(x1)
    0x14EB0823 p801: sb x14, 336(x22)
    0xF3CF0F23 p802: sb x28, -194(x30)
    0xD28388A3 p803: sb x8, -719(x7)
    0x006D00A3 p804: sb x6, 1(x26)
    0x817200A3 p805: sb x23, -2047(x4)
    0xCE3E0723 p806: sb x3, -786(x28)
    0x385A0923 p807: sb x5, 914(x20)
    0x04C680A3 p808: sb x12, 65(x13)
    0xE4BE8F23 p809: sb x11, -418(x29)
    0x77630923 p810: sb x22, 1906(x6)
    0x79DF8423 p811: sb x29, 1928(x31)
    0x7FB58FA3 p812: sb x27, 2047(x11)
    0x18040723 p813: sb x0, 398(x8)
    0xA2FA87A3 p814: sb x15, -1489(x21)
    0x218289A3 p815: sb x24, 531(x5)
    0x49AB83A3 p816: sb x26, 1159(x23)
    0xC1F60323 p817: sb x31, -1018(x12)
    0x1E290923 p818: sb x2, 498(x18)
    0x48798EA3 p819: sb x7, 1181(x19)
    0x9CD78523 p820: sb x13, -1590(x15)
    0xFF148FA3 p821: sb x17, -1(x9)
    0xD3E00323 p822: sb x30, -730(x0)
    0x050C8723 p823: sb x16, 78(x25)
    0x81910023 p824: sb x25, -2048(x2)
    0x8EAC0DA3 p825: sb x10, -1797(x24)
    0x6A1705A3 p826: sb x1, 1707(x14)
    0xA32800A3 p827: sb x18, -1503(x16)
    0x653D8223 p828: sb x19, 1604(x27)
    0x01418023 p829: sb x20, 0(x3)
    0x93588FA3 p830: sb x21, -1729(x17)
    0x7E950F23 p831: sb x9, 2046(x10)
    0x1B7A1E23 p832: sh x23, 444(x20)
    0xABCC91A3 p833: sh x28, -1373(x25)
    0xE1829823 p834: sh x24, -496(x5)
    0x62181823 p835: sh x1, 1584(x16)
    0x5ECD9EA3 p836: sh x12, 1533(x27)
    0x36E19DA3 p837: sh x14, 891(x3)
    0x1E6E93A3 p838: sh x6, 487(x29)
    0x800A90A3 p839: sh x0, -2047(x21)
    0x15D51E23 p840: sh x29, 348(x10)
    0x6C8F1B23 p841: sh x8, 1750(x30)
    0xAB399223 p842: sh x19, -1372(x19)
    0x684B9823 p843: sh x4, 1680(x23)
    0x00B410A3 p844: sh x11, 1(x8)
    0x59639B23 p845: sh x22, 1430(x7)
    0x7F5C1FA3 p846: sh x21, 2047(x24)
    0x65F890A3 p847: sh x31, 1601(x17)
    0x01201023 p848: sh x18, 0(x0)
    0x7EAD1F23 p849: sh x10, 2046(x26)
    0x6A921D23 p850: sh x9, 1722(x4)
    0x059F9A23 p851: sh x25, 84(x31)
    0xE5061DA3 p852: sh x16, -421(x12)
    0x80771023 p853: sh x7, -2048(x14)
    0xFA569BA3 p854: sh x5, -73(x13)
    0xFF1E1FA3 p855: sh x17, -1(x28)
    0x78D59F23 p856: sh x13, 1950(x11)
    0xBE3316A3 p857: sh x3, -1043(x6)
    0x6F4B1AA3 p858: sh x20, 1781(x22)
    0xD1A79A23 p859: sh x26, -748(x15)
    0x16211923 p860: sh x2, 370(x2)
    0x43E490A3 p861: sh x30, 1057(x9)
    0x49B09AA3 p862: sh x27, 1173(x1)
    0xD8F91EA3 p863: sh x15, -611(x18)
    0x65EDA0A3 p864: sw x30, 1601(x27)
    0x102C2423 p865: sw x2, 264(x24)
    0xB2DD25A3 p866: sw x13, -1237(x26)
    0x01082023 p867: sw x16, 0(x16)
    0x1DCA24A3 p868: sw x28, 457(x20)
    0x7EB1AFA3 p869: sw x11, 2047(x3)
    0x36E6A3A3 p870: sw x14, 871(x13)
    0xE5AE2423 p871: sw x26, -440(x28)
    0x5C3AA623 p872: sw x3, 1484(x21)
    0xA4F0AA23 p873: sw x15, -1452(x1)
    0xA35F26A3 p874: sw x21, -1491(x30)
    0x23702FA3 p875: sw x23, 575(x0)
    0xFF17AFA3 p876: sw x17, -1(x15)
    0x8404ADA3 p877: sw x0, -1957(x9)
    0x00AFA0A3 p878: sw x10, 1(x31)
    0x1DDCA223 p879: sw x29, 452(x25)
    0x8193A0A3 p880: sw x25, -2047(x7)
    0x8082A023 p881: sw x8, -2048(x5)
    0x7E412F23 p882: sw x4, 2046(x2)
    0x1E692923 p883: sw x6, 498(x18)
    0xC389ACA3 p884: sw x24, -967(x19)
    0x9125A4A3 p885: sw x18, -1783(x11)
    0x2A9329A3 p886: sw x9, 691(x6)
    0x23F427A3 p887: sw x31, 559(x8)
    0x98122A23 p888: sw x1, -1644(x4)
    0x2B3B22A3 p889: sw x19, 677(x22)
    0x45B72CA3 p890: sw x27, 1113(x14)
    0xC4762EA3 p891: sw x7, -931(x12)
    0x24CBABA3 p892: sw x12, 599(x23)
    0x4D652FA3 p893: sw x22, 1247(x10)
    0x5258A2A3 p894: sw x5, 1317(x17)
    0xF54EA1A3 p895: sw x20, -189(x29)
    0x014D0063 p896: beq x26, x20, p896
    0x01170263 p897: beq x14, x17, p898
    0xCDBA06E3 p898: beq x20, x27, p693
    0xF5700E63 p899: beq x0, x23, p346
    0xB66808E3 p900: beq x16, x6, p608
    0xE4AE0EE3 p901: beq x28, x10, p796
    0x2E4B0463 p902: beq x22, x4, p1088
    0x12E88263 p903: beq x17, x14, p976
    0x9EF58CE3 p904: beq x11, x15, p518
    0xA7A18663 p905: beq x3, x26, p36
    0xFE568E63 p906: beq x13, x5, p393
    0xEFFC0063 p907: beq x24, x31, p323
    0x181E8863 p908: beq x29, x1, p1008
    0xD2CF0C63 p909: beq x30, x12, p219
    0xD3640CE3 p910: beq x8, x22, p732
    0xF32902E3 p911: beq x18, x18, p856
    0x393D8463 p912: beq x27, x19, p1138
    0xE78C8863 p913: beq x25, x24, p301
    0xD0828A63 p914: beq x5, x8, p215
    0x99D384E3 p915: beq x7, x29, p501
    0x349F8463 p916: beq x31, x9, p1126
    0xF4B786E3 p917: beq x15, x11, p872
    0xCBE48663 p918: beq x9, x30, p193
    0x2FC60C63 p919: beq x12, x28, p1109
    0xB95084E3 p920: beq x1, x21, p634
    0xBE230863 p921: beq x6, x2, p149
    0x26310063 p922: beq x2, x3, p1074
    0x9F0B8E63 p923: beq x23, x16, p26
    0xCE050CE3 p924: beq x10, x0, p730
    0x927982E3 p925: beq x19, x7, p486
    0xFD9202E3 p926: beq x4, x25, p911
    0x8CDA8EE3 p927: beq x21, x13, p470
    0x01BD1063 p928: bne x26, x27, p928
    0x010E1263 p929: bne x28, x16, p930
    0xB98F9463 p930: bne x31, x24, p132
    0xB08B16E3 p931: bne x22, x8, p614
    0xECB11A63 p932: bne x2, x11, p345
    0x30269C63 p933: bne x13, x2, p1131
    0xC0A41AE3 p934: bne x8, x10, p683
    0xCDD09A63 p935: bne x1, x29, p220
    0x31FA1863 p936: bne x20, x31, p1132
    0x396A9063 p937: bne x21, x22, p1161
    0x96359AE3 p938: bne x11, x3, p519
    0xECD49AE3 p939: bne x9, x13, p864
    0xB72D9463 p940: bne x27, x18, p134
    0x34599263 p941: bne x19, x5, p1150
    0xE84C1CE3 p942: bne x24, x4, p852
    0xB1A31E63 p943: bne x6, x26, p118
    0x837510E3 p944: bne x10, x23, p440
    0x97189263 p945: bne x17, x17, p10
    0xCE7212E3 p946: bne x4, x7, p747
    0x819192E3 p947: bne x3, x25, p436
    0x24601063 p948: bne x0, x6, p1092
    0x80CE98E3 p949: bne x29, x12, p441
    0x15C29863 p950: bne x5, x28, p1034
    0xC5E91663 p951: bne x18, x30, p202
    0x9C0C9E63 p952: bne x25, x0, p47
    0xA2161C63 p953: bne x12, x1, p71
    0xCE9B9AE3 p954: bne x23, x9, p759
    0xDEEF1663 p955: bne x30, x14, p310
    0xBD579E63 p956: bne x15, x21, p179
    0x914398E3 p957: bne x7, x20, p513
    0x89371CE3 p958: bne x14, x19, p484
    0xB0F816E3 p959: bne x16, x15, p642
    0x01CAC063 p960: blt x21, x28, p960
    0x01B7C263 p961: blt x15, x27, p962
    0xD455C2E3 p962: blt x11, x5, p787
    0xAEC24C63 p963: blt x4, x12, p129
    0xE7DD4E63 p964: blt x26, x29, p355
    0xBE4A4263 p965: blt x20, x4, p190
    0xC154C663 p966: blt x9, x21, p201
    0x9B644263 p967: blt x8, x22, p48
    0xD379CA63 p968: blt x19, x23, p277
    0x1D154263 p969: blt x10, x17, p1082
    0xA098CE63 p970: blt x17, x9, p81
    0xE59DC8E3 p971: blt x27, x25, p863
    0x31F64463 p972: blt x12, x31, p1166
    0x32EC4663 p973: blt x24, x14, p1176
    0xAA26C863 p974: blt x13, x2, p122
    0xF6A3CEE3 p975: blt x7, x10, p942
    0xDE6046E3 p976: blt x0, x6, p843
    0x2DE74863 p977: blt x14, x30, p1157
    0x9CDECE63 p978: blt x29, x13, p73
    0xD41E4C63 p979: blt x28, x1, p297
    0xA1834EE3 p980: blt x6, x24, p603
    0x2DAF4063 p981: blt x30, x26, p1157
    0x850B48E3 p982: blt x22, x16, p490
    0x95394663 p983: blt x18, x19, p42
    0xB6084063 p984: blt x16, x0, p176
    0xCCFFCE63 p985: blt x31, x15, p272
    0x0A8CCC63 p986: blt x25, x8, p1032
    0x8E7BC863 p987: blt x23, x7, p23
    0x96B14AE3 p988: blt x2, x11, p569
    0xA940C8E3 p989: blt x1, x20, p641
    0xCA31CE63 p990: blt x3, x3, p269
    0xE522C4E3 p991: blt x5, x18, p881
    0x00C65063 p992: bge x12, x12, p992
    0x00F75263 p993: bge x14, x15, p994
    0xF36E50E3 p994: bge x28, x22, p938
    0xBC9B5063 p995: bge x22, x9, p211
    0xB7C1DA63 p996: bge x3, x28, p193
    0x2E60DA63 p997: bge x1, x6, p1186
    0xF80D5E63 p998: bge x26, x0, p461
    0x893C5EE3 p999: bge x24, x19, p526
    0xA0585C63 p1000: bge x16, x5, p110
    0x8B85DAE3 p1001: bge x11, x24, p534
    0xA7245CE3 p1002: bge x8, x18, p648
    0xAC2A5E63 p1003: bge x20, x2, p162
    0xC9B9D2E3 p1004: bge x19, x27, p781
    0x92B25A63 p1005: bge x4, x11, p58
    0x0FD2D063 p1006: bge x5, x29, p1062
    0xC4A7D663 p1007: bge x15, x10, p258
    0xC106D663 p1008: bge x13, x16, p243
    0xEB535263 p1009: bge x6, x21, p410
    0xAB9F5E63 p1010: bge x30, x25, p161
    0x927CD663 p1011: bge x25, x7, p62
    0x91E05C63 p1012: bge x0, x30, p58
    0xD0D95C63 p1013: bge x18, x13, p315
    0xD94ED0E3 p1014: bge x29, x20, p854
    0xA414DA63 p1015: bge x9, x1, p140
    0xA04154E3 p1016: bge x2, x4, p634
    0xD08BD863 p1017: bge x23, x8, p317
    0xA4E3D463 p1018: bge x7, x14, p140
    0xF97AD0E3 p1019: bge x21, x23, p987
    0x9DFDD8E3 p1020: bge x27, x31, p624
    0xB1A8D8E3 p1021: bge x17, x26, p705
    0xA91FD063 p1022: bge x31, x17, p158
    0xBC355AE3 p1023: bge x10, x3, p756
    0x004EE063 p1024: bltu x29, x4, p1024
    0x00CBE263 p1025: bltu x23, x12, p1026
    0xA023E463 p1026: bltu x7, x2, p132
    0x96DAEC63 p1027: bltu x21, x13, p97
    0x83F96CE3 p1028: bltu x18, x31, p530
    0x24946863 p1029: bltu x8, x9, p1177
    0x8A056A63 p1030: bltu x10, x0, p51
    0xF735E0E3 p1031: bltu x11, x19, p991
    0xA4A26463 p1032: bltu x4, x10, p154
    0xA306ECE3 p1033: bltu x13, x16, p663
    0x85A060E3 p1034: bltu x0, x26, p538
    0xE0FDE2E3 p1035: bltu x27, x15, p908
    0x20576A63 p1036: bltu x14, x5, p1169
    0xAA7A6263 p1037: bltu x20, x7, p182
    0xD547ECE3 p1038: bltu x15, x20, p868
    0x8B99EC63 p1039: bltu x19, x25, p61
    0x8F7F6263 p1040: bltu x30, x23, p73
    0xCFC16863 p1041: bltu x2, x28, p333
    0x8B64EC63 p1042: bltu x9, x22, p64
    0xC86860E3 p1043: bltu x16, x6, p819
    0x992FEEE3 p1044: bltu x31, x18, p635
    0x078B6463 p1045: bltu x22, x24, p1071
    0xB011E4E3 p1046: bltu x3, x1, p728
    0xC08D6AE3 p1047: bltu x26, x8, p796
    0x90EE6EE3 p1048: bltu x28, x14, p607
    0xCD566863 p1049: bltu x12, x21, p333
    0xECBC6063 p1050: bltu x24, x11, p458
    0xB9D8E2E3 p1051: bltu x17, x29, p764
    0xA1B0E463 p1052: bltu x1, x27, p158
    0xCDE2E2E3 p1053: bltu x5, x30, p846
    0xCA336AE3 p1054: bltu x6, x3, p843
    0xE91CE463 p1055: bltu x25, x17, p449
    0x0192F063 p1056: bgeu x5, x25, p1056
    0x008DF263 p1057: bgeu x27, x8, p1058
    0x170C7663 p1058: bgeu x24, x16, p1149
    0x00C4FA63 p1059: bgeu x9, x12, p1064
    0xBBB87A63 p1060: bgeu x16, x27, p273
    0x9BC57863 p1061: bgeu x10, x28, p145
    0x90F8F2E3 p1062: bgeu x17, x15, p615
    0x963FFE63 p1063: bgeu x31, x3, p134
    0xB60CF4E3 p1064: bgeu x25, x0, p770
    0x86DAF0E3 p1065: bgeu x21, x13, p577
    0x01DBFC63 p1066: bgeu x23, x29, p1072
    0xA290FE63 p1067: bgeu x1, x9, p186
    0x17A6FA63 p1068: bgeu x13, x26, p1161
    0x9F8E7263 p1069: bgeu x28, x24, p166
    0xEF1B78E3 p1070: bgeu x22, x17, p1002
    0x961F7663 p1071: bgeu x30, x1, p138
    0x1B45F863 p1072: bgeu x11, x20, p1180
    0xF773F063 p1073: bgeu x7, x23, p521
    0x9E51FEE3 p1074: bgeu x3, x5, p689
    0xF42D78E3 p1075: bgeu x26, x2, p1031
    0x9849FE63 p1076: bgeu x19, x4, p155
    0xE75EFC63 p1077: bgeu x29, x21, p467
    0xC6A97AE3 p1078: bgeu x18, x10, p851
    0xD1F672E3 p1079: bgeu x12, x31, p888
    0xBA727AE3 p1080: bgeu x4, x7, p805
    0xFF607263 p1081: bgeu x0, x22, p562
    0x15E77A63 p1082: bgeu x14, x30, p1167
    0x8137F6E3 p1083: bgeu x15, x19, p574
    0xF9247EE3 p1084: bgeu x8, x18, p1059
    0x146A7063 p1085: bgeu x20, x6, p1165
    0x94E178E3 p1086: bgeu x2, x14, p658
    0xD4B37063 p1087: bgeu x6, x11, p399
    0x00000AEF p1088: jal x21, p1088
    0x00400C6F p1089: jal x24, p1090
    0xA04FF66F p1090: jal x12, p195
    0xEE4FF3EF p1091: jal x7, p508
    0xC19FF9EF p1092: jal x19, p842
    0x9C1FFCEF p1093: jal x25, p693
    0xCA1FFFEF p1094: jal x31, p878
    0xE11FF2EF p1095: jal x5, p971
    0xCECFFDEF p1096: jal x27, p387
    0xBD1FFB6F p1097: jal x22, p829
    0x9B1FF56F p1098: jal x10, p694
    0xEADFFBEF p1099: jal x23, p1014
    0xA65FF46F p1100: jal x8, p741
    0xAE5FFEEF p1101: jal x29, p774
    0xB14FF5EF p1102: jal x11, p275
    0xFFDFF76F p1103: jal x14, p1102
    0xA54FFD6F p1104: jal x26, p229
    0x07C008EF p1105: jal x17, p1136
    0xD70FF0EF p1106: jal x1, p430
    0xF01FF16F p1107: jal x2, p1043
    0xD18FF6EF p1108: jal x13, p410
    0xB18FF4EF p1109: jal x9, p283
    0xEECFF06F p1110: jal x0, p529
    0x8C0FFA6F p1111: jal x20, p135
    0xB24FFE6F p1112: jal x28, p289
    0xAF1FFF6F p1113: jal x30, p789
    0xD4DFF26F p1114: jal x4, p941
    0x811FF1EF p1115: jal x3, p607
    0xD0DFF7EF p1116: jal x15, p927
    0xD1DFF36F p1117: jal x6, p932
    0xCEDFF86F p1118: jal x16, p921
    0x9A9FF96F p1119: jal x18, p713
    0xDDD5FE37 p1120: lui x28, 908639
    0x8D5F6CB7 p1121: lui x25, 579062
    0x000010B7 p1122: lui x1, 1
    0xFFFFFBB7 p1123: lui x23, 1048575
    0x691689B7 p1124: lui x19, 430440
    0x2BF15437 p1125: lui x8, 179989
    0xE45D1837 p1126: lui x16, 935377
    0x313AE337 p1127: lui x6, 201646
    0xED61CF37 p1128: lui x30, 972316
    0x36698137 p1129: lui x2, 222872
    0x61466AB7 p1130: lui x21, 398438
    0x14CD3A37 p1131: lui x20, 85203
    0x6A5DDEB7 p1132: lui x29, 435677
    0x8B611FB7 p1133: lui x31, 570897
    0xFFC93037 p1134: lui x0, 1047699
    0xC4AD0B37 p1135: lui x22, 805584
    0xA9F92737 p1136: lui x14, 696210
    0xBDA712B7 p1137: lui x5, 776817
    0xFFFFE4B7 p1138: lui x9, 1048574
    0xBC0DC637 p1139: lui x12, 770268
    0xE46D3537 p1140: lui x10, 935635
    0x827965B7 p1141: lui x11, 534422
    0xF18406B7 p1142: lui x13, 989248
    0xF5D187B7 p1143: lui x15, 1006872
    0x6A0EB1B7 p1144: lui x3, 434411
    0x00000DB7 p1145: lui x27, 0
    0x165D6237 p1146: lui x4, 91606
    0xBE08C8B7 p1147: lui x17, 778380
    0x31DF5C37 p1148: lui x24, 204277
    0x32F093B7 p1149: lui x7, 208649
    0xE0AB9937 p1150: lui x18, 920249
    0x13965D37 p1151: lui x26, 80229
    0x1B1FF717 p1152: auipc x14, 111103
    0x438DAA17 p1153: auipc x20, 276698
    0x049E1C97 p1154: auipc x25, 18913
    0xF19C8E17 p1155: auipc x28, 989640
    0x135DCB97 p1156: auipc x23, 79324
    0xFA855B17 p1157: auipc x22, 1026133
    0x948A7997 p1158: auipc x19, 608423
    0x8D1ACE97 p1159: auipc x29, 577964
    0x0B0D6517 p1160: auipc x10, 45270
    0xED4B6117 p1161: auipc x2, 971958
    0x4D219497 p1162: auipc x9, 315929
    0x6A9DA317 p1163: auipc x6, 436698
    0xFFFFE197 p1164: auipc x3, 1048574
    0xFFFFFD17 p1165: auipc x26, 1048575
    0x0D8C0017 p1166: auipc x0, 55488
    0x859F9C17 p1167: auipc x24, 547321
    0x00001617 p1168: auipc x12, 1
    0x00000897 p1169: auipc x17, 0
    0x360B8F97 p1170: auipc x31, 221368
    0xCAB68D97 p1171: auipc x27, 830312
    0xC5E44F17 p1172: auipc x30, 810564
    0xBB052417 p1173: auipc x8, 766034
    0xC480A397 p1174: auipc x7, 804874
    0x8B840917 p1175: auipc x18, 571456
    0x83E6B697 p1176: auipc x13, 540267
    0x17F99797 p1177: auipc x15, 98201
    0x24902297 p1178: auipc x5, 149762
    0x2F6E4097 p1179: auipc x1, 194276
    0x41124217 p1180: auipc x4, 266532
    0xB914FA97 p1181: auipc x21, 758095
    0x580DE817 p1182: auipc x16, 360670
    0xE3B6D597 p1183: auipc x11, 932717
    0x00000073 p1184: ecall
    0x00100073 p1185: ebreak
    0x0FF0000F p1186: fence
";
